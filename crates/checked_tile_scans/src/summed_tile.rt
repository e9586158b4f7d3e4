//! The length of the tiles that sum up segments. No result depends on it.

ghost use Rattle.std.specs.Prelude.{◌≡◌, ◌<◌, ◌≤◌};
ghost use Rattle.sharing.specs.Thresholds.{long_tile};

use segdes::SegDes;
use sharing::{LONG_TILE, Pace};
use std::alloc::Allocator;

/// Whether the elements can be cut between segments into `parts` nearly equal parts, at least one: after each place that cuts
/// them into equal parts a segment starts within half a part.
fn is_cut_evenly<A: Allocator>(d: &SegDes<A>, parts: usize) -> bool
    requires { 1 ≤ parts }
{
    let each = d.total() / parts;
    for part in 1..parts {
        let place = each.saturating_mul(part);
        let start = d.start_or_total(d.starts_before(place));
        if start.saturating_sub(place) > each / 2 {
            return false;
        }
    }
    true
}

/// The length of the tiles that sum up segments: one tile for all if each worker can have whole segments, else those of the race.
/// If you ask for short tiles, you get them.
///
/// With one tile each worker adds up its segments once. The race adds up all elements twice, so it is no faster than a worker who
/// has half a part more than an equal one.
pub(crate) fn summed_tile<A: Allocator>(pace: Pace, d: &SegDes<A>) -> u32
    ensures some { 1 ≤ result }
    ensures short { pace.tile < long_tile → result ≡ pace.tile }
{
    if pace.tile() < LONG_TILE || !is_cut_evenly(d, pace.workers().get()) {
        return pace.tile();
    }
    (d.total() as u32).max(1)
}
