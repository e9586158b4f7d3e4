//! A gate for tests: it sees which worker passes which point of which tile, and holds workers until others have continued.
//!
//! A test passes it to the gated form of a call, and then asks it whether it saw all:
//!
//! ```text
//! let gate = Watch::new(rt.alloc(), Race::Scan, 4, 2, Holds::UntilOthers(Point::Claimed(0)))?;
//! let sums = scan::<_, _, Add, _>(&rt, rt.alloc(), Config::new(1, 2)?, &[3, 1, 7, 0], &gate)?;
//! assert!(rt; gate.saw_all());
//! ```
//!
//! A worker is held for a bounded number of turns, so that a test ends even if nobody goes on. What the gate sees is not proved,
//! only that it is safe and returns: no clause speaks of a number that other threads change.
#![tactic(auto)]

mod points;
mod watch;

pub use points::{Board, Holds, Race, place_of};
pub use watch::Watch;
