//! Combining permutes: each element is sent to the place that its index names, and joined by a monoid with what stands there, so
//! that one call sums by a key, counts, or finds the least of a group.
//!
//! The calls work over a room of the caller's, which holds what stands before, by the thread that calls, without a runtime and
//! without memory. They look at all indices first, so that a fault leaves the room as it was. Then they go through the elements
//! in their order. `walks` has the second walk, `flat` and `segments` the calls, and `counts` how many indices name each place.
//! `ranges` has the second walk for the owner of one range of the places, and `operator_ranges` the same by the operators.
#![tactic(auto)]

pub mod counts;
pub mod flat;
pub mod operator_ranges;
pub mod ranges;
pub mod segments;
mod walks;

pub use counts::{counts_over, seg_counts_over};
pub use flat::{bool_combine_over, combine_over, int_combine_over};
pub use operator_ranges::{bool_combine_range, counts_range, int_combine_range};
pub use ranges::combine_range;
pub use segments::{seg_bool_combine_over, seg_combine_over, seg_int_combine_over};
