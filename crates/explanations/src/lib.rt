//! Explains why a run of a script stopped: the script's line, what its call takes, its arguments and what bound them, and what is
//! wrong.
#![tactic(auto)]

mod argument_lines;
pub mod bindings;
mod call_faults;
mod input_files;
pub mod stops;

pub use stops::{MEMORY, WRITE, explain, explain_too_long};
