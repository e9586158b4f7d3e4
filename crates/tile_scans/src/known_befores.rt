//! Vectors in tiles, with what stands before each tile.

ghost use Rattle.std.specs.Prelude.{◌≡◌, map};
ghost use Rattle.std.specs.Option.{option_copied};
ghost use Rattle.tile_scans.specs.TiledSums.{flagged, sums_of};
ghost use Rattle.tile_scans.specs.Written.{befores_of};

use crate::tiled::Tiled;
use cvl_base::Packed;
use cvl_base::monoid::know_laws;
use scan_walks::Reading;
use std::alloc::Allocator;

/// A vector in tiles, with what stands before each tile.
#[derive(Drop)]
pub(crate) struct KnownBefores<'a, M: Packed, X: Copy, E: Reading<X, M::Item>, A: Allocator> {
    pub(crate) vector: &'a Tiled<'a, M, X, E, A>,
    pub(crate) before: &'a [M::Item],
    ghost known: { before.now ≡ befores_of M.join M.unit (sums_of M.join M.unit vector.now.plan.len vector.now.plan.tile
        (flagged (option_copied vector.now.segments) (map E.item vector.now.elements.now))) },
}

impl<'a, M: Packed, X: Copy, E: Reading<X, M::Item>, A: Allocator> KnownBefores<'a, M, X, E, A> {
    ghost use Rattle.std.specs.Prelude.{◌<◌, ◌≤◌, IsTrue, length, take};
    ghost use Rattle.cvl_base.specs.Folds.{fold_of};
    ghost use Rattle.cvl_base.specs.SegmentMonoid.{seg_join, seg_unit};
    ghost use Rattle.tile_plan.specs.Ranges.{range_of, tile_count};

    /// What stands before a place of tile `t`, or before its end, since the last start of a segment. Reads only elements of the
    /// tile.
    pub(crate) fn before_place(&self, t: u32, place: usize) -> M::Item
        requires tile { t < tile_count self.now.vector.now.plan.len self.now.vector.now.plan.tile }
        requires begun { (range_of self.now.vector.now.plan.len self.now.vector.now.plan.tile t).0 ≤ place }
        requires within { place ≤ length self.now.vector.now.elements.now }
        ensures value { result ≡ (fold_of (seg_join M.join) (seg_unit M.unit) (take place
            (flagged (option_copied self.now.vector.now.segments) (map E.item self.now.vector.now.elements.now)))).1 }
        ensures item { IsTrue (M.is_item result) }
    {
        know_laws::<M>();
        let (start, _) = self.vector.plan.range(t);
        let before = self.before[t as usize];
        let sum = self.vector.sum_between(start as usize, place, before);
        sum.1
    }
}
