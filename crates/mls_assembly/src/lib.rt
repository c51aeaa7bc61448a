//! The pieces of groups' timesteps that wait at a rank for those of other clients.
#![tactic(auto)]

pub mod assembled;
pub mod group_step;
mod kept_piece;
mod key_pieces;
pub mod pending;
pub mod pending_rows;
mod recovering;
mod saving;

pub use assembled::Assembled;
pub use group_step::GroupStep;
pub use pending::Pending;
pub use pending_rows::PendingRows;
