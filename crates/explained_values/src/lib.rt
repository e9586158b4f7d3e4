//! What is wrong with the arguments of a call, in words: the element, the number or the lengths that give it no value.
#![tactic(auto)]

pub mod arguments;
pub mod extents;
pub mod index_words;
mod kind_faults;
mod name_faults;
mod number_words;
pub mod segments;
mod sentences;
mod sum_words;
pub mod value_faults;

pub use arguments::{Argument, Holding};
pub use value_faults::put_value_fault;
