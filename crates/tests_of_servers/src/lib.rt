//! The command `serve`: connections by hand, hostile ones, and calls that fail.
#![tactic(auto)]

#[cfg(test)]
mod common;
#[cfg(test)]
mod held;
#[cfg(test)]
mod meeting;
#[cfg(test)]
mod rows;
#[cfg(test)]
mod twelve;
