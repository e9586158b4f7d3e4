//! The numbers of a command line.

ghost use Rattle.std.specs.Prelude.{◌≡◌, ℕ, ◌≤◌, Some, codes};
ghost use Rattle.clap.specs.Words.{found_of, rows_of};
ghost use Rattle.cvl_base.specs.Limits.{longest_tile, most_workers};
ghost use Rattle.command_line.specs.Reads.{HasNumber, number_in};

use clap::ArgMatches;
use cvl_base::Config;

/// The number of an option.
fn number(matches: &ArgMatches<'_>, name: &str) -> u32
    requires { (greatest : ℕ) × (greatest ≤ longest_tile) × HasNumber matches.now name.now greatest }
    ensures value { number_in name.now (rows_of (found_of matches.now)) ≡ Some result }
    ensures range { (greatest : ℕ) → greatest ≤ longest_tile → HasNumber matches.now name.now greatest
        → (1 ≤ result) × (result ≤ greatest) }
{
    matches.get_one::<u32>(name).unwrap()
}

/// The tile length and the number of workers.
pub(crate) fn config(matches: &ArgMatches<'_>) -> Config
    requires tile { HasNumber matches.now (codes "tile") longest_tile }
    requires workers { HasNumber matches.now (codes "workers") most_workers }
    ensures tile { number_in (codes "tile") (rows_of (found_of matches.now)) ≡ Some result.tile }
    ensures workers { number_in (codes "workers") (rows_of (found_of matches.now)) ≡ Some result.workers }
{
    let tile = number(matches, "tile");
    let workers = number(matches, "workers");
    Config::new(tile, workers).unwrap()
}
