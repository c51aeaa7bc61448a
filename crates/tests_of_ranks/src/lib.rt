//! Keys, pending pieces and a rank of a small study, by hand.
#![tactic(auto)]

#[cfg(test)]
mod assembly;
#[cfg(test)]
mod ledger;
#[cfg(test)]
mod parts;
#[cfg(test)]
mod rank;
#[cfg(test)]
mod saved;
