//! One value of each segment that no operator of the table gives: the place of its first true flag, and its sum over whole
//! numbers, which fits a group of any length.
//!
//! The calls write into the caller's room, on the calling thread, without a runtime and without memory. `values` has the walk of
//! both, and of any other value of a segment, `first_trues` and `exact_sums` the calls.
#![tactic(auto)]

pub mod exact_sums;
pub mod first_trues;
pub mod values;

pub use exact_sums::seg_exact_sums_over;
pub use first_trues::{NONE, first_that, first_true, seg_first_that_over, seg_first_true_over};
pub use values::{SegmentValue, values_over};
