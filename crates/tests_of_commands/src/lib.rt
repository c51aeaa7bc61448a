//! Designs, trials, decisions, results and commands over files, a sink and keepers in memory.
#![tactic(auto)]

#[cfg(test)]
mod cli;
#[cfg(test)]
mod design;
#[cfg(test)]
mod launch;
#[cfg(test)]
mod result;
#[cfg(test)]
mod trial;
