//! Races for the least place: workers find the least place of each slot in a vector cut into tiles.
#![tactic(auto)]

mod least_work;
mod pace;
mod race;

pub use pace::least_pace;
pub use race::{race_for_least, race_for_leasts};
