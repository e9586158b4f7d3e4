//! Scans and reduces of integers by sums that never wrap, flat and by segments: `Overflow` at the first result that does not fit
//! 32 bits.
//!
//! A short vector is walked at once. For the tiles of a long one workers race at the pace of the scans that wrap, and tell sums
//! of 54 bits. No result is written before all are known to fit, except for the sums of segments, which are written as they are
//! tried.
#![tactic(auto)]

mod checked;
mod overflows;
mod segment_sums;
mod summed_tile;
mod tile_totals;
mod tiled_scans;

pub use checked::{checked_reduce, checked_scan, checked_seg_reduce, checked_seg_scan};
