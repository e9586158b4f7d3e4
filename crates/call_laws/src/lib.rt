//! Laws of the calls' definitions: what they say in other words, which no code calls.
//!
//! Each is a function that takes and gives nothing and whose contract is the law. A definition that does not say what
//! the field means by the call is refused here.
#![tactic(auto)]

pub mod checked_sums;
pub mod combining_ranges;
pub mod combining_rooms;
pub mod cut_segments;
pub mod cut_vectors;
pub mod descriptors;
pub mod distributes;
pub mod elementwise;
pub mod extracts;
pub mod nests;
pub mod over_ranks;
pub mod owners;
pub mod packs;
pub mod permuted;
pub mod permutes_in_parts;
pub mod runs;
pub mod scans;
pub mod segmented;
pub mod senders;
pub mod sorts;
pub mod text_laws;
