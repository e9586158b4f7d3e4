//! The scan of a vector once what stands before each tile is known. It is written in runs, without a race.

ghost use Rattle.std.specs.Prelude.{◌≡◌, ◌≤◌, IfOk, length, vec_len};
ghost use Rattle.std.specs.List.{AllPass};
ghost use Rattle.std.specs.Option.{option_copied};
ghost use Rattle.cvl_base.specs.Limits.{most_elements};
ghost use Rattle.scan_walks.specs.Ranges.{range_scan_of};
ghost use Rattle.tile_scans.specs.TiledSums.{elements_of, flagged, sums_of};
ghost use Rattle.tile_scans.specs.Written.{befores_of};

use crate::known_befores::KnownBefores;
use crate::steps::Steps;
use crate::tiled::Tiled;
use cvl_base::monoid::know_laws;
use cvl_base::{Memory, NoResources, Packed};
use fresh::Run;
use scan_walks::{Itself, Reading};
use segdes::SegDes;
use sharing::Pace;
use std::alloc::Allocator;
use std::thread::Threads;

/// The exclusive scan of a vector, with its descriptor if it has one, in tiles of the pace's length, from what stands before each
/// tile since the last start of a segment. Several threads write a long one.
///
/// The elements must be items of the monoid, at most 4,194,304, and as many as the segments' total. The result is as long as they
/// are. Source: Blelloch's prescan and segmented scans.
pub fn scan_after_befores<R: Threads + Sync, A: Memory, M: Packed + Send + Sync>(
    rt: &R,
    alloc: A,
    pace: Pace,
    a: &[M::Item],
    segments: Option<&SegDes<A>>,
    before: &[M::Item],
) -> Result<Vec<M::Item, A>, NoResources>
where
    M::Item: Send + Sync,
    requires items { AllPass M.is_item a.now }
    requires agrees { elements_of (option_copied segments) (length a.now) ≡ length a.now }
    requires in_limit { length a.now ≤ most_elements }
    requires before { before.now ≡ befores_of M.join M.unit
        (sums_of M.join M.unit (length a.now) pace.tile (flagged (option_copied segments) a.now)) }
    ensures values { IfOk result (λ sums. sums.items
        ≡ range_scan_of M.join M.unit M.unit (flagged (option_copied segments.entry) a.now)) }
    ensures as_long { IfOk result (λ sums. vec_len sums ≡ length a.now) }
{
    know_laws::<M>();
    let vector = Tiled::<M, M::Item, Itself, A>::new(a, segments, pace.tile());
    let sums = vector.scan_after(rt, alloc, pace, before)?;
    Ok(sums)
}

impl<'a, M: Packed, X: Copy, E: Reading<X, M::Item>, A: Allocator> Steps<M::Item>
    for KnownBefores<'a, M, X, E, A> {
    ghost use Rattle.std.specs.Prelude.{◌+◌, ◌<◌, ◌≤◌, length, map};
    ghost use Rattle.std.specs.Option.{option_copied};
    ghost use Rattle.scan_walks.specs.Ranges.{range_scan_of};
    ghost use Rattle.tile_scans.specs.TiledSums.{flagged};
    ghost use Rattle.tile_scans.specs.Written.{IsWrittenOn, next_of};

    ghost whole = { λ known. range_scan_of M.join M.unit M.unit
        (flagged (option_copied known.vector.now.segments) (map E.item known.vector.now.elements.now)) };

    /// The step goes up to the end of the tile in which the next place lies.
    fn write_on(&self, run: Run<M::Item>) -> Run<M::Item>
        requires some { 0 < run.room }
        requires within { next_of run + run.room ≤ length (range_scan_of M.join M.unit M.unit
            (flagged (option_copied self.now.vector.now.segments) (map E.item self.now.vector.now.elements.now))) }
        ensures { IsWrittenOn (range_scan_of M.join M.unit M.unit
            (flagged (option_copied self.now.vector.now.segments) (map E.item self.now.vector.now.elements.now))) run result }
    {
        let at = run.next_place();
        let t = self.vector.plan.tile_at(at as u32);
        let (_, end) = self.vector.plan.range(t);
        let end = (end as usize).min(at + run.room());
        let before = self.before_place(t, at);
        self.vector.scan_between(run, at, end, before)
    }
}
