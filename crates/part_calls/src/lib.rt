//! What one part of a call does, if the whole needs no more than one call: sums that continue from what stands before the part,
//! one range of the result of a permute, of first senders, of a combining permute or of a transpose, and one piece of a text. The
//! laws of `call_laws` say how the parts make the whole.
#![tactic(auto)]

pub mod carries;
pub mod combine_ranges;
mod limits;
pub mod permute_ranges;
pub mod sender_ranges;
pub mod text_pieces;
pub mod transpose_ranges;
