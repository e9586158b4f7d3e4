//! Slices and segments of vectors, copied in a row: slices of one vector that may overlap and come in any order, and the segments
//! of one vector, each followed by that of another. Use them to sort by parts, to join tables or to make lists longer.
//!
//! The calls write into the caller's room, on the calling thread, without a runtime and without memory. They check everything
//! before they write the first element, so that a fault leaves the room as it was. `slices` gathers, `pairs` appends.
#![tactic(auto)]

mod copies;
pub mod pairs;
pub mod slices;

pub use pairs::append_segments_over;
pub use slices::{check_slices, gather_segments_over, write_slices};
