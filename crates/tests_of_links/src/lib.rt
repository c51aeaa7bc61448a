//! Pairs, the handshake, a group's sending and the command `group`, over links in memory and over TCP.
#![tactic(auto)]

#[cfg(test)]
mod group;
#[cfg(test)]
mod handshake;
#[cfg(test)]
mod live;
#[cfg(test)]
mod tcp;
