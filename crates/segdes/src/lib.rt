//! Descriptors of segmented vectors: how long the segments are and where each one starts; and the writer of what segments hold,
//! in order.
//!
//! A segmented vector is a flat vector beside a descriptor. Its segments lie in order in the flat vector, so segment s starts at
//! the sum of the lengths of the segments before it. Segments and elements are counted from 0.
#![tactic(auto)]

mod check;
pub mod descriptor;
pub mod seg_lengths;
mod segment_runs;
mod starts;

pub use descriptor::{SegDes, check_total};
pub use seg_lengths::SegLengths;
pub use segment_runs::{EndToEnd, Segments};
