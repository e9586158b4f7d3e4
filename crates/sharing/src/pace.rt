//! Whether workers race for the tiles of a vector, how many, and for tiles of which length.

ghost use Rattle.std.specs.Prelude.{◌≡◌, ◌≤◌, IfSome};
ghost use Rattle.cvl_base.specs.Limits.{longest_tile, most_elements};
ghost use Rattle.sharing.specs.Races.{race_of};
ghost use Rattle.sharing.specs.Shares.{writing_threads};

use crate::thread_count::ThreadCount;
use crate::threads::threads_among;
use crate::{LEAST_RACED, LONG_TILE, TILES_EACH};
use cvl_base::Config;
use cvl_base::limits::{LONGEST_TILE, MOST_ELEMENTS};
use std::marker::Model;

/// A length of tiles, in elements, and how many workers race for them. Only this crate makes one, from a configuration.
#[derive(Clone, Copy, Debug, PartialEq, Eq)]
pub struct Pace {
    tile: u32,
    workers: u32,
}

impl Model for Pace {
    ghost use Rattle.std.specs.Prelude.{◌≤◌};
    ghost use Rattle.cvl_base.specs.Configs.{TilesAndWorkers};
    ghost use Rattle.cvl_base.specs.Limits.{longest_tile, most_workers};

    ghost Value = { TilesAndWorkers };

    ghost view = { λ pace. record { tile = pace.tile; workers = pace.workers } };

    ghost invariant = { λ pace. (1 ≤ pace.tile) × (pace.tile ≤ longest_tile) × (1 ≤ pace.workers)
        × (pace.workers ≤ most_workers) };

    ghost inverse = { λ v. record { tile = v.tile; workers = v.workers } };
}

impl Pace {
    /// The length of tiles, in elements.
    pub fn tile(self) -> u32
        ensures value { result ≡ self.tile }
        ensures least { 1 ≤ result }
        ensures greatest { result ≤ longest_tile }
    {
        self.tile
    }

    /// The workers, each a thread.
    pub fn workers(self) -> ThreadCount
        ensures { result ≡ self.workers }
    {
        ThreadCount::new(self.workers)
    }

    /// The same workers for tiles of one place each.
    pub fn place_by_place(self) -> Pace
        ensures { result ≡ record { tile = 1; workers = self.workers } }
    {
        Pace {
            tile: 1,
            workers: self.workers,
        }
    }

    /// How many of the workers share the writing of this many elements after the race: one if a second doesn't pay.
    pub fn threads_writing(self, elements: usize) -> ThreadCount
        ensures exact { result ≡ writing_threads self.workers elements }
        ensures least { 1 ≤ result }
        ensures greatest { result ≤ self.workers }
    {
        ThreadCount::new(threads_among(self.workers, elements))
    }
}

/// The tiles and the workers of the race for this many elements, or none if one thread walks them at once: those you ask for if
/// the tiles are short; for long tiles, if the race pays, a share of the elements for each worker, in tiles that are made longer.
/// None if there is no board for the race: a vector without elements has no tile, and one of more than 4,194,304 may have more
/// tiles than a board. Only the configuration and the length decide.
pub fn race_shape(pays: bool, config: Config, elements: usize) -> Option<Pace>
    ensures exact { result ≡ race_of pays config elements }
    ensures some { IfSome result (λ _. 1 ≤ elements) }
    ensures few { IfSome result (λ _. elements ≤ most_elements) }
    ensures workers { IfSome result (λ pace. pace.workers ≤ config.workers) }
{
    if elements == 0 || elements > MOST_ELEMENTS {
        return None;
    }
    if config.tile() < LONG_TILE {
        return Some(Pace {
            tile: config.tile(),
            workers: config.workers(),
        });
    }
    let elements = elements as u32;
    let workers = (elements / LEAST_RACED).min(config.workers());
    if !pays || workers <= 1 {
        return None;
    }
    let tile = (elements / (workers * TILES_EACH))
        .min(LONGEST_TILE)
        .max(config.tile());
    Some(Pace { tile, workers })
}
