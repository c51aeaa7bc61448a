//! Sums of samples and the digits of what is printed of them, by hand.
#![tactic(auto)]

#[cfg(test)]
mod cov;
#[cfg(test)]
mod field;
#[cfg(test)]
mod num;
#[cfg(test)]
mod power;
