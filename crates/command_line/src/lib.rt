//! The command line of the program `cvl`: its command, and what its words say.
#![tactic(auto)]

mod command;
pub mod fault;
mod numbers;
mod parse;
pub mod words;

pub use fault::WordsFault;
pub use words::{Words, read_words};
