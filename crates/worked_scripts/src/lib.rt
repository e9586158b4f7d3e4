//! Worked values of scripts: which argument of a line goes where in its call, what a script writes, and which of two
//! faults counts.
//!
//! Each function takes and gives nothing, and its contract is a list of calls, lines or scripts with their results. They are
//! computed from the definitions alone, so a misread definition is refused here, before any code depends on it.
#![tactic(auto)]

pub mod elements;
pub mod fault_order;
pub mod lines;
pub mod nested_scripts;
pub mod packs;
pub mod permute_calls;
pub mod pointwise;
pub mod recipe_faults;
pub mod scans;
pub mod scripts;
pub mod writes;
