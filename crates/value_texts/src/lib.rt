//! The text of values.
#![tactic(auto)]

mod alone;
mod elements;
mod flat_vectors;
mod nest_text;
mod part_writes;
mod pieces;
mod segments;
mod value_writes;
mod vector_text;
mod written;

pub use alone::{nest_text_alone, vector_text_alone};
pub use flat_vectors::{FlatVector, long_vector};
pub use part_writes::{Cut, made_in_parts};
pub use pieces::{Piece, pieces_for, threads_writing_pieces, write_first};
pub use value_writes::put_value;
pub use vector_text::put_opening;
pub use written::Written;
