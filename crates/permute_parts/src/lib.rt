//! Permutes in parts, each of which writes a range of the result and reads all indices.
//!
//! [`mark_places`] says where the words of each part's marks begin, so that parts that run at the same time share no word. Each
//! part writes its range, marks its places and counts them, by [`part_permute`], [`part_select_permute`] or
//! [`part_default_permute`]. The permute has a result exactly if the parts count as many places as take part, which [`all_sent`]
//! says; a select permute's flags are counted in parts before, and [`trues_fit`] says whether its room has a place for each that
//! is true. First senders count the indices of each range in the same way; with flags, [`all_flagged`] says whether they count
//! all. The module [`flags`] has the permutes of booleans that come as bytes.
#![tactic(auto)]

pub mod counts;
pub mod flags;
pub mod marks;
pub mod ranges;

pub use counts::{all_flagged, all_sent, trues_fit};
pub use marks::mark_places;
pub use ranges::{part_default_permute, part_permute, part_select_permute};
