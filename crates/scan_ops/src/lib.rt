//! Scans and reduces, flat and by segments: what the elements before each one join to, and what all of them join to.
#![tactic(auto)]

mod bools;
mod ints;

pub use bools::{bool_reduce, bool_scan, seg_bool_reduce, seg_bool_scan};
pub use checked_tile_scans::{checked_reduce, checked_scan, checked_seg_reduce, checked_seg_scan};
pub use ints::{int_reduce, int_scan, seg_int_reduce, seg_int_scan};
pub use scan_walks::{Itself, Reading, readings, sum_of_range};
pub use tile_scans::{reduce, scan, scan_readings, seg_reduce, seg_reduce_readings, seg_scan};
