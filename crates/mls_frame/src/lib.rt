//! Frames as bytes: what the front of a list of bytes is, with no copy of samples, and the one spelling
//! of a frame.
#![tactic(auto)]

pub mod feeder;
pub mod frame_view;
pub mod frames;
pub mod laws;
mod numbers;
pub mod piece_view;
pub mod putting;

pub use feeder::Feeder;
pub use frame_view::{FrameView, Seen, view};
pub use frames::{Frame, Piece, Samples};
pub use mls_model::lanes::FrameFault;
pub use piece_view::PieceView;
pub use putting::put;
