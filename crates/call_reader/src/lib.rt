//! Bytes in and bytes out: the lines of a script, the inputs, and the text of values.
#![tactic(auto)]

mod inputs;
pub mod nested_laws;
mod nested_pieces;
mod nested_reads;
mod nested_texts;
mod nested_tokens;
mod piece_reads;
mod pieces;
pub mod text_laws;
mod vector_reads;

pub use inputs::{InputBytes, read_vector_alone, read_vector_within, worked_inputs};
pub use line_reader::{read_line, token};
pub use nested_reads::{read_nested, read_nested_alone};
pub use nested_tokens::NestedBytes;
pub use value_texts::put_value;
pub use vector_reads::read_vector;
