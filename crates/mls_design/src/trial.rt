//! The generator of trial: a tape and a schedule that are made of a study and a number.

pub mod faults;
mod lanes;
mod make;
mod measure;
mod mixing;
mod plan;
mod planning;
mod route;
mod routes;
mod size;
mod sizes;
mod stock;
mod words;
mod writing;

pub use faults::MakeFault;
pub use make::{Made, make_tape};
pub use measure::tape_size;
pub use size::Size;
