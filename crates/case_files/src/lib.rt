//! Files of cases: scripts with their inputs, what they write and why they stop, and the runs of each case.
#![tactic(auto)]

pub mod cases;
mod sections;
pub mod single_runs;
pub mod trouble;

pub use cases::{Case, cases_of};
pub use single_runs::{SingleRun, runs_of};
pub use trouble::Trouble;
