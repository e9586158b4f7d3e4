//! The walks of a permute by segments: they find each place's sender, the place whose element goes there, or the first bad place.
//!
//! `segment_destinations` says where the places of each segment are sent, and `first_walk` sends them, segment by segment.
//! `one_walk` holds the senders of one segment at a time and writes its elements at once; in `shared_walk` several threads each
//! take whole segments. `segment_scatters` has the two walks of a simple permute into a room, which need no senders, and
//! `one_segment` those of one segment.
#![tactic(auto)]

mod first_walk;
mod one_segment;
mod one_walk;
mod segment_destinations;
mod segment_scatters;
mod shared_walk;

pub use first_walk::segment_senders_alone;
pub use segment_destinations::{
    AllInSegments, FlaggedInSegments, SegmentDestinations, segment_count,
};
pub use segment_scatters::{are_permutations, scatter_segments_over};
pub use shared_walk::permuted_by_segments;
