//! Sums of 64 bits: as a monoid, and those of a whole room, which are checked, widened and narrowed.
//!
//! The calls write into the caller's room, on the calling thread, without a runtime and without memory.
#![tactic(auto)]

pub mod monoid;
pub mod rooms;

pub use monoid::LongSum;
pub use rooms::{
    check_fitting, check_growing, ints_from_sums_over, sums_from_ints_over, write_ints, write_sums,
};
