//! The first result of a checked scan in tiles that does not fit 32 bits, for which workers race.

ghost use Rattle.std.specs.Prelude.{◌≡◌, IfOk};
ghost use Rattle.std.specs.Option.{option_copied};
ghost use Rattle.tile_scans.specs.TiledSums.{flagged};
ghost use Rattle.checked_tile_scans.specs.Checked.{first_outside, total_scan, totals_before};

use crate::tile_totals::Totals;
use boards::Targets;
use crew::Gate;
use cvl_base::{Memory, NoResources};
use least_races::race_for_least;
use sharing::Pace;
use std::alloc::Allocator;
use std::thread::Threads;

/// The tiles of a vector with a result that does not fit 32 bits, all in one slot.
#[derive(Drop)]
struct Outside<'a, A: Allocator> {
    vector: &'a Totals<'a, A>,
    before: &'a [i64],
    ghost known: { before.now
        ≡ totals_before vector.now.plan (flagged (option_copied vector.now.segments) vector.now.elements.now) },
}

impl<'a, A: Allocator> Outside<'a, A> {
    ghost use Rattle.std.specs.Prelude.{◌<◌};
    ghost use Rattle.tile_plan.specs.Ranges.{tile_count};
    ghost use Rattle.checked_tile_scans.specs.Checked.{tile_outside};

    /// The place of the first result of tile `t` that does not fit 32 bits, if the tile has one.
    fn place_in(&self, t: u32) -> Option<u32>
        requires { t < tile_count self.now.vector.now.plan.len self.now.vector.now.plan.tile }
        ensures { result ≡ tile_outside self.now.vector.now.plan
            (total_scan (flagged (option_copied self.now.vector.now.segments) self.now.vector.now.elements.now)) t }
    {
        let (from, to) = self.vector.plan.range(t);
        let fitting = self.vector.fitting(t, self.before[t as usize]);
        if fitting < (to - from) as usize {
            return Some(from + fitting as u32);
        }
        None
    }
}

impl<'a, A: Allocator> Targets for Outside<'a, A> {
    ghost use Rattle.std.specs.Option.{option_copied};
    ghost use Rattle.tile_scans.specs.TiledSums.{flagged};
    ghost use Rattle.checked_tile_scans.specs.Checked.{slots_of_tiles};

    ghost targets = { λ o. slots_of_tiles o.vector.now.plan
        (flagged (option_copied o.vector.now.segments) o.vector.now.elements.now) };

    ghost slot_count = { λ o. 1 };

    fn places(&self) -> u32 {
        self.vector.plan.count()
    }

    fn slots(&self) -> u32 {
        1
    }

    fn slot(&self, place: u32) -> Option<u32> {
        match self.place_in(place) {
            Some(_) => Some(0),
            None => None,
        }
    }
}

/// The place of the first result that does not fit 32 bits, from what stands before each tile. Workers race for the first tile
/// with such a result, and pass the gate at `Claimed` and `Finished` of each tile; then one thread walks that tile again.
pub(crate) fn first_overflow<R: Threads + Sync, A: Memory, G: Gate>(
    rt: &R,
    alloc: A,
    pace: Pace,
    vector: &Totals<A>,
    before: &[i64],
    gate: &G,
) -> Result<Option<u32>, NoResources>
    requires { before.now
        ≡ totals_before vector.now.plan (flagged (option_copied vector.now.segments) vector.now.elements.now) }
    ensures { IfOk result (λ place. place
        ≡ first_outside (total_scan (flagged (option_copied vector.now.segments) vector.now.elements.now))) }
{
    let outside = Outside { vector, before };
    match race_for_least(rt, alloc, pace.place_by_place(), &outside, gate)? {
        Some(t) => Ok(outside.place_in(t)),
        None => Ok(None),
    }
}
