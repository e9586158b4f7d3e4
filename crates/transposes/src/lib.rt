//! The transpose of a matrix in row order.
//!
//! The call writes into the caller's room, on the calling thread, without a runtime and without memory. It works block by block,
//! so that it reads the elements of a block while they are in cache, and writes runs of places. A part of a transpose is a range
//! of its places.
#![tactic(auto)]

mod blocks;
mod matrices;
pub mod ranges;
mod strided;
pub mod whole;

pub use ranges::transpose_range_over;
pub use whole::transpose_over;
