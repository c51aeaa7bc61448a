//! Calls of the ground, of texts and formats, and of the checkpoint store: one good use of each that takes memory or calls the outside.
#![tactic(auto)]

#[cfg(test)]
mod base;
#[cfg(test)]
mod ckpt;
#[cfg(test)]
mod frame;
#[cfg(test)]
mod slot;
#[cfg(test)]
mod study;
#[cfg(test)]
mod tape;
#[cfg(test)]
mod text;
