//! What threads write of a vector in tiles, in runs, once what stands before each tile is known.

use crate::known_befores::KnownBefores;
use crate::reduces_after_befores::KnownReduces;
use crate::steps::InSteps;
use crate::tiled::Tiled;
use cvl_base::{Memory, NoResources, Packed};
use fresh::write_in_runs;
use scan_walks::Reading;
use segdes::SegDes;
use sharing::Pace;
use std::thread::Threads;

impl<'a, M, X, E, A> Tiled<'a, M, X, E, A>
where
    M: Packed + Send + Sync,
    M::Item: Send + Sync,
    X: Copy + Send + Sync,
    E: Reading<X, M::Item> + Send + Sync,
    A: Memory,
{
    ghost use Rattle.std.specs.Prelude.{◌≡◌, ◌≤◌, IfOk, Some, length, map, vec_len};
    ghost use Rattle.std.specs.Option.{option_copied};
    ghost use Rattle.scan_walks.specs.Ranges.{range_scan_of, reduces_of};
    ghost use Rattle.tile_scans.specs.TiledSums.{flagged, sums_of};
    ghost use Rattle.tile_scans.specs.Written.{befores_of};

    /// The scan, from what stands before each tile. It is written in runs, by several threads if it is long, each tile after what
    /// stands before it. So no item is moved.
    pub(crate) fn scan_after<'b, R: Threads + Sync>(
        &'b self,
        rt: &R,
        alloc: A,
        pace: Pace,
        before: &'b [M::Item],
    ) -> Result<Vec<M::Item, A>, NoResources>
        requires known { before.now ≡ befores_of M.join M.unit (sums_of M.join M.unit self.now.plan.len self.now.plan.tile
            (flagged (option_copied self.now.segments) (map E.item self.now.elements.now))) }
        ensures values { IfOk result (λ sums. sums.items ≡ range_scan_of M.join M.unit M.unit
            (flagged (option_copied self.now.segments) (map E.item self.now.elements.now))) }
        ensures as_long { IfOk result (λ sums. vec_len sums ≡ length self.now.elements.now) }
    {
        let known = KnownBefores {
            vector: self,
            before,
        };
        let len = self.elements.len();
        let in_steps = InSteps { steps: &known };
        let sums = write_in_runs(rt, alloc, pace.threads_writing(len), &in_steps, len)?;
        Ok(sums)
    }

    /// The reduces of the segments of a vector that is not empty, from what stands before each tile. They are written in runs, by
    /// several threads if the vector is long.
    pub(crate) fn reduces_after<'b, R: Threads + Sync>(
        &'b self,
        rt: &R,
        alloc: A,
        pace: Pace,
        segments: &'b SegDes<A>,
        before: &'b [M::Item],
    ) -> Result<Vec<M::Item, A>, NoResources>
        requires cut { option_copied self.now.segments ≡ Some segments.now }
        requires filled { 1 ≤ self.now.plan.len }
        requires known { before.now ≡ befores_of M.join M.unit (sums_of M.join M.unit self.now.plan.len self.now.plan.tile
            (flagged (option_copied self.now.segments) (map E.item self.now.elements.now))) }
        ensures values { IfOk result (λ sums. sums.items
            ≡ reduces_of M.join M.unit segments.now (map E.item self.now.elements.now)) }
        ensures one_each { IfOk result (λ sums. vec_len sums ≡ length segments.now) }
    {
        let known = KnownBefores {
            vector: self,
            before,
        };
        let reduces = KnownReduces {
            known: &known,
            segments,
        };
        let in_steps = InSteps { steps: &reduces };
        let count = segments.count();
        let threads = pace.threads_writing(self.elements.len().max(count));
        let sums = write_in_runs(rt, alloc, threads, &in_steps, count)?;
        Ok(sums)
    }
}
