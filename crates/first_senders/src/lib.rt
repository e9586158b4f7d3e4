//! First senders: for each place of a result the least place whose index names it, or -1 if none does. So if several places name
//! one, the same one always wins, and no values are combined, as breadth-first search, sorts or the removal of duplicates need
//! it.
//!
//! The calls write into the caller's room, on the calling thread, without a runtime and without memory. They check all indices
//! first, so that a fault leaves the room as it was. Then they go through the places from the last to the first, so that the last
//! write to a place is its least sender. `walks` has the two walks over a range, `flat` and `segments` the calls.
#![tactic(auto)]

pub mod flat;
pub mod segments;
pub mod walks;

pub use flat::{first_senders_over, select_first_senders_over};
pub use segments::{seg_first_senders_over, seg_select_first_senders_over};
pub use walks::{NONE, write_first};
