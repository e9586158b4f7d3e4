//! Merges by flags: each flag takes the next element of one vector or of another, as where two branches of a program meet. A
//! merge is the inverse of two packs, one by the flags and one by their negation.
//!
//! The calls write into the caller's room, on the calling thread, without a runtime and without memory. They count the flags
//! first, so that a fault leaves the room as it was. `merges` has the flat call and the walk, `segments` the call by segments,
//! which is the same walk once the counts of each segment fit, and `merge_laws` the law.
#![tactic(auto)]

pub mod merge_laws;
pub mod merges;
pub mod segments;

pub use merges::merge_by_flags_over;
pub use segments::seg_merge_by_flags_over;
