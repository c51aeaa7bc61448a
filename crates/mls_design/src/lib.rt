//! The pick-freeze design of a study: the values of each simulation, the design text, the solver's samples and
//! the pieces that a group sends.
//!
//! `mls_model` has the definition, word by word of one generator; a `Design` keeps two words for each group and
//! parameter. Contracts see it as what `design_of` makes of its study, and "made for this study" is that equation.
#![tactic(auto)]

mod design;
pub mod laws;
mod piece;
mod range;
mod solver;
mod text;
mod trial;
mod words;

pub use design::Design;
pub use piece::make_piece;
pub use solver::solve;
pub use text::write_design;
pub use trial::{Made, MakeFault, Size, make_tape, tape_size};
