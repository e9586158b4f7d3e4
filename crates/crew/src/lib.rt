//! A crew: several workers that take the tiles of one work, until none is left.
#![tactic(auto)]

mod gate;
mod piece_laws;
mod together;
mod work;
mod worker;

pub use gate::{Gate, OpenGate, Point};
pub use piece_laws::pieces_law;
pub use together::{Crewed, run_crew, run_crew_for_facts};
pub use work::Work;
