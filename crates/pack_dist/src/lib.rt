//! Packs and counts, and the calls that make a vector of a given length or read or change one of its elements.
//!
//! Each call that scans or counts flags in a race has a gated form, whose workers pass a gate at each point of their way through
//! a tile. The call itself is that form with the gate that holds nobody.
#![tactic(auto)]

mod checks;
mod counts;
mod distributes;
mod extracts;
mod indexes;
mod kept_blocks;
mod kept_tiles;
mod packs;
mod replaces;
mod segment_packs;
mod writes;

pub use counts::{count_true, seg_count};
pub use distributes::{distribute, distribute_over, seg_distribute};
pub use extracts::{extract, seg_extract};
pub use indexes::{index, index_over, seg_index};
pub use packs::{pack, pack_over};
pub use replaces::{replace, seg_replace};
pub use segment_packs::{packed_descriptor, seg_pack, seg_pack_values, seg_pack_values_over};
