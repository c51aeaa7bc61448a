//! A rank's book with its keeper in memory, and histograms, by hand.
#![tactic(auto)]

#[cfg(test)]
mod book;
#[cfg(test)]
mod hist;
