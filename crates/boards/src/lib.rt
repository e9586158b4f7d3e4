//! Boards: what the workers of a single-pass call share, so that each tile is given to one of them. The scan board is here; the
//! least board, and the answer to a claim at either, are re-exported from `least_boards`.
#![tactic(auto)]

pub mod board;
pub mod look_back;
mod rule;
pub mod seat;
pub mod tiles;
mod words;

pub use board::{Ended, ScanBoard};
pub use least_boards::{Claim, LeastBoard, LeastSeat, Leasts, Targets};
pub use look_back::Back;
pub use seat::ScanSeat;
pub use tiles::Tiles;
