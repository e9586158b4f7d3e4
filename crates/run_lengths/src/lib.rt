//! Runs of equal neighbours: how long each is, and where it begins. In a sorted vector each key has one run, so that they are the
//! keys without repeats and their counts, and the lengths are those of the segments by which values of one key are joined.
//!
//! The calls write into the front of the caller's room, on the calling thread, without a runtime and without memory. `numbers`
//! has what is written of a run, `walks` the walks over neighbours, `flat`, `segments` and `counts` the calls, and `run_laws`
//! what runs are.
#![tactic(auto)]

pub mod counts;
pub mod flat;
pub mod numbers;
pub mod run_laws;
pub mod segments;
mod walks;

pub use counts::seg_run_counts_over;
pub use flat::run_numbers_over;
pub use numbers::{Length, RunNumber, Start};
pub use segments::seg_run_numbers_over;
