//! What every crate stands on: the shape of a study, blocks of samples, and the objects of the outside.
#![tactic(auto)]

pub mod calls;
pub mod clock;
pub mod faults;
pub mod gate;
pub mod laws;
pub mod limits;
pub mod memory;
pub mod numbers;
pub mod outside;
pub mod put;
pub mod row;
pub mod rows;
pub mod samples;
pub mod shape;
pub mod system;

pub use mls_model::blocks::Span;
