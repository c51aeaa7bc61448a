//! Study files: the reading of one, with its first fault, and the study that it spells.
#![tactic(auto)]

mod fault;
mod keys;
mod parameter;
mod parameter_places;
mod read;
mod study;
mod tables;
mod unknown_keys;
mod values;

pub use fault::{Name, StudyFault};
pub use mls_base::Span;
pub use mls_base::numbers::Numbers;
pub use mls_base::shape::Shape;
pub use mls_model::studies::{Key, Product, Statistic};
pub use read::read_study;
pub use study::Study;
