//! The lines of a script, and what lines and inputs are made of: tokens, and their numbers.
#![tactic(auto)]

mod args;
mod digits;
pub mod line_tokens;
mod lines;
pub mod number;
pub mod token;

pub use lines::read_line;
