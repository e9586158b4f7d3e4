//! Combining permutes, counts and exact sums by place in parts, as steps.
//!
//! If there are few places, each part joins its elements in a room of its own, by [`own_room`], [`own_counts`] or
//! [`own_sums`]; [`begin_rooms`] says where these rooms begin. Then each share of the call's room is joined with the same places
//! of all rooms, in the order of the parts, by [`join_share`], [`join_counts`] or [`share_sums`].
//!
//! If there are many places, each part owns a range of the room and reads all indices. [`are_places`] checks them before, and
//! [`cut_places`] says where the ranges begin. The ranges are those of `part_calls`; [`range_sums`] makes sums that have to fit
//! 32 bits.
//!
//! The module [`calls`] has the steps by the numbers of operators. All write into memory of the caller's, on the calling thread,
//! and take none.
#![tactic(auto)]

pub mod calls;
pub mod checked_sums;
pub mod cuts;
pub mod own_rooms;
pub mod room_joins;

pub use checked_sums::{range_sums, share_sums};
pub use cuts::{are_places, cut_places};
pub use own_rooms::{begin_rooms, own_counts, own_room, own_sums};
pub use room_joins::{join_counts, join_share};
