//! The walks of scans and reduces over whole vectors, flat and by segments, on the calling thread; and sums over whole numbers,
//! of ranges too, with which a checked scan finds the first result that does not fit before it writes.
//!
//! The ending of a walk's name says what it gives: `_over` writes the caller's room, `_in` the vector that it reads, `_vec` gives
//! a vector, and no such ending means a value. The walks over a range of the places are in the crate `range_walks`, and
//! re-exported here; there `_into` writes a run of fresh memory.
#![tactic(auto)]

mod blocks;
pub mod checked;
pub mod fronts;
pub mod in_place;
pub mod numbers;
pub mod scans_over;
mod segment_fronts;
mod short_in_place;
pub mod vectors;
pub mod whole_sums;

pub use checked::{
    checked_scan_over, checked_scan_vec, checked_seg_reduce_vec, checked_seg_scan_over,
    checked_seg_scan_vec, checked_sum,
};
pub use fronts::{fitting_of_range, fitting_of_scan};
pub use in_place::{checked_scan_in, checked_seg_scan_in, scan_in, seg_scan_in};
pub use numbers::{fitting, know_numbers};
pub use range_walks::{
    Itself, Reading, plain, ranges, readings, scan_into, scan_range_into, scan_vec,
    seg_reduces_into, sum_from, sum_of_range,
};
pub use scans_over::{scan_over, seg_reduce_over, seg_reduce_readings_over, seg_scan_over};
pub use vectors::{seg_reduce_vec, seg_scan_vec};
pub use whole_sums::{total, total_of_range};
