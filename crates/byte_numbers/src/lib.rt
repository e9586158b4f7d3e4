//! Bytes and integers: bytes widened to integers from 0 to 255, and integers narrowed to bytes, so that a text of 100 MB need not
//! take 400 MB of memory.
//!
//! A byte counts from 0 to 255. A signed byte from -128 to 127 is the same byte: after widening, subtract 256 from the integers
//! above 127; before narrowing, add 256 to the negative ones.
//!
//! The calls write into the caller's room, on the calling thread, without a runtime and without memory. A narrowing first checks
//! all integers, so that a fault leaves the room as it was.
#![tactic(auto)]

pub mod narrowed;
pub mod widened;

pub use narrowed::bytes_from_ints_over;
pub use widened::ints_from_bytes_over;
