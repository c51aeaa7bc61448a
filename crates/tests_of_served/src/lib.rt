//! Connections that are served, over links and posts in memory.
#![tactic(auto)]

#[cfg(test)]
mod failing;
#[cfg(test)]
mod hostile;
#[cfg(test)]
mod serving;
#[cfg(test)]
mod worked;
