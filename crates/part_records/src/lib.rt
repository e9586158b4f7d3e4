//! What the parts of a call told, put together between two steps: what stands before each part, and what all of them give.
#![tactic(auto)]

pub mod places;
pub mod sums;
pub mod totals;

pub use places::part_places;
pub use sums::{carried_total, carries};
pub use totals::part_total;
