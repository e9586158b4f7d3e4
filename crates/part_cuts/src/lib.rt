//! Where the parts of a call are cut, and where they stand in its other vectors: by what each part has of them, and by where it
//! stands in two others.
#![tactic(auto)]

pub mod evenly;
pub mod pairs;
pub mod places;
pub mod starts;
pub mod white;

pub use evenly::even_places;
pub use pairs::{added_places, remaining_places};
pub use places::{exact_count_places, exact_places};
pub use starts::first_start;
pub use white::white_places;
