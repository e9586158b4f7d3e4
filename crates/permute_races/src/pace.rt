//! Whether workers race for a permute.

ghost use Rattle.std.specs.Prelude.{◌≡◌, ◌≤◌, IfSome};
ghost use Rattle.cvl_base.specs.Limits.{most_elements};
ghost use Rattle.sharing.specs.Races.{permute_race};

use cvl_base::Config;
use cvl_base::limits::MOST_ELEMENTS;
use sharing::{LONG_TILE, Pace, race_shape};

/// The tiles and the workers of the race of a permute of `indices` indices into `places` places, or none if one thread walks
/// them. Workers race if you ask for tiles of fewer than 1,024 elements, unless the result has more places than a board has
/// words. Only the configuration and these lengths decide, and no result depends on it.
pub fn permute_pace(config: Config, indices: usize, places: usize) -> Option<Pace>
    ensures exact { result ≡ permute_race config indices places }
    ensures few { IfSome result (λ _. indices ≤ most_elements) }
    ensures few_places { IfSome result (λ _. places ≤ most_elements) }
    ensures workers { IfSome result (λ pace. pace.workers ≤ config.workers) }
{
    if places > MOST_ELEMENTS || config.tile() >= LONG_TILE {
        return None;
    }
    race_shape(false, config, indices)
}
