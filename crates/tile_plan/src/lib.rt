//! Lists cut into tiles: the ranges of the tiles, and the list again from the tiles' pieces in any order.
#![tactic(auto)]

mod pieces;
mod plan;
mod plan_laws;

pub use pieces::{Piece, gather, gather_tiles};
pub use plan::Plan;
pub use plan_laws::{plan_law, range_law, range_values};
