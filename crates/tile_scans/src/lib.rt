//! Scans and reduces by any monoid, flat and by segments, in one pass over tiles for which workers race.
//!
//! If you ask for tiles of fewer than 1,024 elements, as many workers as you ask for race for them, but no more than there are
//! tiles. Otherwise as many workers as have a share of a long vector race for its tiles, which may be made longer, and a vector
//! too short to share is walked at once. Only the configuration and the vector's length decide.
//!
//! Each call has a gated form, whose workers pass a gate at each point of their way through a tile. The call itself is that form
//! with the gate that holds nobody, so that a gate sees whatever the call does.
//!
//! A crate above that sums tiles in its own way has the parts: the pace, the race for what stands before each tile, also of
//! elements that are read as items, and the scan that is written once that is known.
#![tactic(auto)]

mod after_befores;
mod known_befores;
mod pace;
mod race;
mod readings;
mod reduces;
mod reduces_after_befores;
mod scans;
mod scans_after_befores;
mod steps;
mod tile_work;
mod tiled;

pub use pace::{reduce_pace, scan_pace};
pub use race::race_for_befores;
pub use readings::befores_of_readings;
pub use reduces::{reduce, seg_reduce, seg_reduce_readings};
pub use scans::{scan, scan_readings, seg_scan};
pub use scans_after_befores::scan_after_befores;
