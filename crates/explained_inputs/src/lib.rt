//! What is wrong with an input, in words: where the bad token stands, and what was expected there.
#![tactic(auto)]

pub mod input_faults;
mod token_places;

pub use input_faults::put_input_fault;
