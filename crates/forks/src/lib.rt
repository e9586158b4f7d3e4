//! Work over slices that several threads share, each a part of it.
#![tactic(auto)]

mod shared;

pub use shared::{SharedWork, run_shared};
