//! How a call is cut into tiles and spread over workers. No result depends on it.

ghost use Rattle.std.specs.Prelude.{◌≡◌, ◌≤◌};

use crate::limits::{LONGEST_TILE, MOST_WORKERS};
use std::marker::Model;
use thiserror::Error;

/// A length of tiles, in elements, and a number of workers.
#[derive(Clone, Copy, Debug, PartialEq, Eq)]
pub struct Config {
    tile: u32,
    workers: u32,
}

impl Model for Config {
    ghost use Rattle.std.specs.Prelude.{◌≤◌};
    ghost use Rattle.cvl_base.specs.Configs.{TilesAndWorkers};
    ghost use Rattle.cvl_base.specs.Limits.{longest_tile, most_workers};

    ghost Value = { TilesAndWorkers };

    ghost view = { λ c. record { tile = c.tile; workers = c.workers } };

    ghost invariant = { λ c. (1 ≤ c.tile) × (c.tile ≤ longest_tile) × (1 ≤ c.workers) × (c.workers ≤ most_workers) };

    ghost inverse = { λ v. record { tile = v.tile; workers = v.workers } };
}

/// Why there is no such configuration.
#[derive(Clone, Copy, Debug, PartialEq, Eq, Error)]
pub enum BadConfig {
    /// The length of tiles is outside 1 to 65,536.
    #[error("a tile has 1 to 65536 elements")]
    Tile,
    /// The number of workers is outside 1 to 64.
    #[error("there are 1 to 64 workers")]
    Workers,
}

impl Config {
    ghost use Rattle.cvl_base.specs.Configs.{config_of};
    ghost use Rattle.cvl_base.specs.Limits.{longest_tile, most_workers};

    /// A configuration of tiles of `tile` elements, 1 to 65,536, and of `workers`, 1 to 64. The tile's range is
    /// checked first. It takes no memory.
    pub fn new(tile: u32, workers: u32) -> Result<Config, BadConfig>
        ensures { result ≡ config_of tile workers }
    {
        if tile < 1 || tile > LONGEST_TILE {
            Err(BadConfig::Tile)
        } else if workers < 1 || workers > MOST_WORKERS {
            Err(BadConfig::Workers)
        } else {
            Ok(Config { tile, workers })
        }
    }

    /// The length of tiles, in elements.
    pub fn tile(self) -> u32
        ensures value { result ≡ self.tile }
        ensures least { 1 ≤ result }
        ensures greatest { result ≤ longest_tile }
    {
        self.tile
    }

    /// The number of workers.
    pub fn workers(self) -> u32
        ensures value { result ≡ self.workers }
        ensures least { 1 ≤ result }
        ensures greatest { result ≤ most_workers }
    {
        self.workers
    }
}
