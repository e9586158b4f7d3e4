//! Permutes of each segment: simple, back, select and default, as in `permutes`, but an index counts from the start of its
//! segment.
//!
//! A simple, select or default permute is one walk of `segment_sends`: each thread takes whole segments, and a buffer holds the
//! senders of one segment at a time. If a place is bad, or one segment is longer than a thread's share, the senders of the whole
//! result are found first. `segment_way` of `permutes` decides which. A back permute is one walk, too: each thread has the same
//! number of indices, checks each and takes its element at once, and a fault drops what was written.
//!
//! Each call has a gated form with the same contract for every gate. If tiles are short, workers race for the first walk: the
//! race is a flat permute's, with indices counted from the start of the whole result.
//!
//! Each call also has a form without a runtime, `.._over`: the calling thread does both walks and writes into the caller's room,
//! and only once it knows that there is no fault. A simple permute looks for senders there only if there is a fault: its first
//! walk marks each index, and its second writes each element to its index. The two walks of a back permute are in
//! `segment_gathers`.
#![tactic(auto)]

mod back_segments;
mod backs;
mod first_walk;
mod flat_indices;
mod one_walk;
mod segment_gathers;
mod segments_over;
mod sends;

pub use backs::seg_back;
pub use segments_over::{seg_back_over, seg_default_into_over, seg_select_over, seg_simple_over};
pub use sends::{seg_default_into, seg_select, seg_simple};
