//! Combining permutes by sums that never wrap: into a room of sums of 64 bits, which are exact, and into a room of integers, each
//! of which has to fit 32 bits at the end. A sum on the way may be of any size.
//!
//! The calls write over a room of the caller's, on the calling thread, and a fault leaves it as it was. They join by the sum in
//! 64 bits, with the walks of `combining_permutes`. `exact` has the calls into sums, which take no memory, and `checked` those
//! into integers, which take 8 bytes for each place of the room; `ranges` has the sums of one range of the room.
#![tactic(auto)]

pub mod checked;
pub mod exact;
pub mod ranges;
mod readings;

pub use checked::{checked_combine_over, seg_checked_combine_over};
pub use exact::{exact_sums_over, seg_exact_sums_over};
pub use ranges::exact_sums_range;
