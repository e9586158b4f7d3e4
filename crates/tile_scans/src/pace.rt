//! Whether workers race for the tiles of a vector, how many, and for tiles of which length. Only the configuration and the length
//! decide, so that a gate sees what a call without one does. No result depends on it. The crate `sharing` has the thresholds and
//! the rule.

ghost use Rattle.std.specs.Prelude.{◌≡◌, ◌≤◌, IfSome};
ghost use Rattle.cvl_base.specs.Limits.{most_elements};
ghost use Rattle.sharing.specs.Races.{reduce_race, scan_race};

use cvl_base::Config;
use sharing::{LEAST_REDUCED, LEAST_SCANNED, Pace, race_shape};

/// The tiles and the workers of the race that scans this many elements, or none if one thread walks them at once.
pub fn scan_pace(config: Config, elements: usize) -> Option<Pace>
    ensures exact { result ≡ scan_race config elements }
    ensures some { IfSome result (λ _. 1 ≤ elements) }
    ensures few { IfSome result (λ _. elements ≤ most_elements) }
    ensures workers { IfSome result (λ pace. pace.workers ≤ config.workers) }
{
    race_shape(elements >= LEAST_SCANNED, config, elements)
}

/// The tiles and the workers of the race that reduces this many elements, which take this many bytes, or none if one thread walks
/// them at once.
pub fn reduce_pace(config: Config, elements: usize, bytes: usize) -> Option<Pace>
    ensures exact { result ≡ reduce_race config elements bytes }
    ensures some { IfSome result (λ _. 1 ≤ elements) }
    ensures few { IfSome result (λ _. elements ≤ most_elements) }
    ensures workers { IfSome result (λ pace. pace.workers ≤ config.workers) }
{
    race_shape(bytes >= LEAST_REDUCED, config, elements)
}
