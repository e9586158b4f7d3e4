//! The walks over a range of the places of a segmented vector: from segment to segment, with a plain loop over the elements of
//! each. The elements are read as items of a monoid.
//!
//! The ending of a walk's name says what it gives: `_into` writes a run of fresh memory, `_vec` gives a vector, and no such
//! ending means a value. `plain` has the loops over elements among which no segment starts, `ranges` the walks over segments,
//! `segment_sums` the sum of one segment, `segment_scans` its scan, and `range_parts` cuts a range where its first segment
//! starts. The walks over whole vectors are above, in the crate `scan_walks`.
#![tactic(auto)]

pub mod ends;
pub mod plain;
pub mod range_parts;
pub mod ranges;
pub mod readings;
mod segment_scans;
mod segment_sums;
mod short_reduces;
mod short_scans;
pub mod short_segments;

pub use plain::{scan_into, scan_vec, sum_from};
pub use range_parts::parts_of_range;
pub use ranges::{reduces_into, scan_range_into, scans_into, seg_reduces_into, sum_of_range};
pub use readings::{Itself, Reading};
pub use short_segments::are_short_and_uneven;
