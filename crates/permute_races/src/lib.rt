//! Races of permutes: workers find the first place that is sent to each place of the result, and then the first bad place.
#![tactic(auto)]

mod bad_places;
mod indices;
mod pace;
mod senders;

pub use indices::check_indices_raced;
pub use pace::permute_pace;
pub use senders::senders_raced;
