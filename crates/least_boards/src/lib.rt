//! The least board, which workers share that look for the least place of each slot; the answer to a claim, and what a seat is, at
//! any board. `boards` has the scan board, and re-exports what is here.
#![tactic(auto)]

pub mod claim;
mod hands;
pub mod least_board;
pub mod least_pass;
mod least_rule;
mod least_words;
pub mod leasts;
pub mod seat;
pub mod targets;

pub use claim::Claim;
pub use hands::{Gather, deal_seats, join_seats};
pub use least_board::LeastBoard;
pub use leasts::Leasts;
pub use seat::{BoardSeat, Handed, LeastSeat};
pub use targets::Targets;
