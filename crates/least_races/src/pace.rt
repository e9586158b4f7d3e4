//! Whether workers race for a least place, how many, and for tiles of which length. The crate `sharing` has the thresholds and
//! the rule.

ghost use Rattle.std.specs.Prelude.{◌≡◌, ◌≤◌, IfSome};
ghost use Rattle.cvl_base.specs.Limits.{most_elements};
ghost use Rattle.sharing.specs.Races.{search_race};

use cvl_base::Config;
use sharing::{LEAST_SEARCHED, Pace, race_shape};

/// The tiles and the workers of the race for the least place of this many elements, or none if one thread walks them at once.
/// Only the configuration and the length decide, and no result depends on it.
pub fn least_pace(config: Config, elements: usize) -> Option<Pace>
    ensures exact { result ≡ search_race config elements }
    ensures some { IfSome result (λ _. 1 ≤ elements) }
    ensures few { IfSome result (λ _. elements ≤ most_elements) }
    ensures workers { IfSome result (λ pace. pace.workers ≤ config.workers) }
{
    race_shape(elements >= LEAST_SEARCHED, config, elements)
}
