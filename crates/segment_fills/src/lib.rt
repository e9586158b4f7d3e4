//! Copies and numbers by segments in a room: of a whole segmented vector, and of its parts, where it is cut at any places and a
//! segment may begin in one part and go on in others.
//!
//! The first `head` elements of a part go on from a segment that began before it, the open one; the others are those of segments
//! with given lengths, the last of which may be longer than what the part has of it.
#![tactic(auto)]

pub mod calls;
pub mod copies;
mod fronts;
pub mod numbers;
pub mod whole;

pub use copies::part_copies_over;
pub use numbers::{numbers_after_over, part_numbers_over};
pub use whole::{seg_distribute_over, seg_index_over};
