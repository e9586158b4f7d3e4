//! Flat permutes: simple, back, select and default. Those of segments are in `segmented_permutes`.
//!
//! A simple, select or default permute takes two walks. The first finds the sender of each place of the result: the place whose
//! element goes there. The second writes the elements, on several threads if the result is long. A short simple or default
//! permute takes one walk, which writes and marks each place, if that shows that no place is bad. A long result takes one walk
//! too: each thread owns a range of it, writes the elements that are sent there over what stood there before, and counts the
//! places that it wrote. `ways` chooses, for flat permutes and for those by segments. A back permute takes one walk, which checks
//! each index and takes its element at once, on several threads if there are many.
//!
//! Each call has a gated form with the same contract for every gate. If tiles are short, workers race for the first walk.
//!
//! Each call also has a form without a runtime, `.._over`: the calling thread does both walks and writes into the caller's room,
//! and only once it knows that there is no fault. A simple permute looks for senders there only if there is a fault: its first
//! walk marks each index, and its second writes each element to its index.
//!
//! The permutes of segments share two parts with these, which are public here: the choice of a way, and the second walk, also
//! over a room.
#![tactic(auto, using(permute_walks::proofs::Taken::lengths))]

mod backs;
mod first_walk;
mod one_or_two_walks;
mod permutes_over;
mod second_walk;
mod sends;
mod ways;

pub use backs::back;
pub use permutes_over::{back_over, default_into_over, select_over, simple_over};
pub use second_walk::{elements_of_senders, elements_of_senders_over};
pub use sends::{default_into, select, simple};
pub use ways::{Way, segment_way};
