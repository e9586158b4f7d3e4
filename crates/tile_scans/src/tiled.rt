//! Vectors in tiles, flat ones and segmented ones.

ghost use Rattle.std.specs.Prelude.{◌≡◌, ◌≤◌, true, length};
ghost use Rattle.std.specs.List.{AllPass, list_all};
ghost use Rattle.std.specs.Option.{option_copied};
ghost use Rattle.cvl_base.specs.Limits.{most_elements};
ghost use Rattle.tile_scans.specs.TiledSums.{elements_of};

use boards::Tiles;
use cvl_base::monoid::know_laws;
use cvl_base::{Monoid, Packed};
use fresh::Run;
use scan_walks::{Reading, scan_into, scan_range_into, sum_from, sum_of_range};
use segdes::SegDes;
use std::alloc::Allocator;
use std::marker::PhantomData;
use tile_plan::Plan;

/// A vector in tiles, whose elements are read as items. Without a descriptor it is flat.
#[derive(Drop)]
pub(crate) struct Tiled<'a, M: Packed, X: Copy, E: Reading<X, M::Item>, A: Allocator> {
    pub(crate) elements: &'a [X],
    pub(crate) segments: Option<&'a SegDes<A>>,
    pub(crate) plan: Plan,
    monoid: PhantomData<M>,
    reading: PhantomData<E>,
    ghost items: { list_all (λ x. M.is_item (E.item x)) elements.now ≡ true },
    ghost agrees: { elements_of (option_copied segments) (length elements.now) ≡ length elements.now },
    ghost whole: { plan.len ≡ length elements.now },
    ghost few: { plan.len ≤ most_elements },
    ghost some: { 1 ≤ plan.tile },
}

impl<'a, M: Packed, X: Copy, E: Reading<X, M::Item>, A: Allocator> Tiled<'a, M, X, E, A> {
    ghost use Rattle.std.specs.Prelude.{◌-◌, IsTrue, false, map, slice_range};
    ghost use Rattle.cvl_base.specs.Folds.{fold_of};
    ghost use Rattle.cvl_base.specs.SegmentMonoid.{seg_join};
    ghost use Rattle.fresh.specs.Places.{with_items};
    ghost use Rattle.scan_walks.specs.Ranges.{range_scan_of};
    ghost use Rattle.tile_scans.specs.TiledSums.{flagged};

    /// A vector of at most 4,194,304 elements, with its descriptor if it has one, in tiles of `tile` elements, at least one.
    pub(crate) fn new(
        elements: &'a [X],
        segments: Option<&'a SegDes<A>>,
        tile: u32,
    ) -> Tiled<'a, M, X, E, A>
        requires items { AllPass (λ x. M.is_item (E.item x)) elements.now }
        requires agrees { elements_of (option_copied segments) (length elements.now) ≡ length elements.now }
        requires few { length elements.now ≤ most_elements }
        requires some { 1 ≤ tile }
        ensures elements { result.elements.now ≡ elements.now }
        ensures segments { option_copied result.segments ≡ option_copied segments.entry }
        ensures plan { result.plan ≡ record { len = length elements.now; tile = tile } }
    {
        Tiled {
            elements,
            segments,
            plan: Plan::new(elements.len() as u32, tile),
            monoid: PhantomData,
            reading: PhantomData,
        }
    }

    /// The sum of the range from place `from` to the one before place `to`, after `before`: whether a segment starts in it, and
    /// what its elements since the last start join to.
    pub(crate) fn sum_between(&self, from: usize, to: usize, before: M::Item) -> (bool, M::Item)
        requires in_order { from ≤ to }
        requires within { to ≤ length self.now.elements.now }
        requires before { IsTrue (M.is_item before) }
        ensures { result ≡ fold_of (seg_join M.join) (false, before) (slice_range
            (flagged (option_copied self.now.segments) (map E.item self.now.elements.now)) from to) }
    {
        match self.segments {
            None => (false, sum_from::<M, X, E>(before, &self.elements[from..to])),
            Some(d) => sum_of_range::<M, X, E, A>(self.elements, d, from, to, before),
        }
    }

    /// Writes the scan of that range, after `before`. The run must have room for as many elements.
    pub(crate) fn scan_between(
        &self,
        run: Run<M::Item>,
        from: usize,
        to: usize,
        before: M::Item,
    ) -> Run<M::Item>
        requires in_order { from ≤ to }
        requires within { to ≤ length self.now.elements.now }
        requires room { to - from ≤ run.room }
        requires before { IsTrue (M.is_item before) }
        ensures { result ≡ with_items run (range_scan_of M.join M.unit before (slice_range
            (flagged (option_copied self.now.segments) (map E.item self.now.elements.now)) from to)) }
    {
        match self.segments {
            None => scan_into::<M, X, E>(run, before, &self.elements[from..to]),
            Some(d) => scan_range_into::<M, X, E, A>(run, self.elements, d, from, to, before),
        }
    }
}

impl<'a, M: Packed, X: Copy, E: Reading<X, M::Item>, A: Allocator> Tiles for Tiled<'a, M, X, E, A> {
    ghost use Rattle.std.specs.Prelude.{map};
    ghost use Rattle.std.specs.Option.{option_copied};
    ghost use Rattle.tile_scans.specs.TiledSums.{flagged, sums_of};

    type M = M;

    ghost sums = { λ v. sums_of M.join M.unit v.plan.len v.plan.tile
        (flagged (option_copied v.segments) (map E.item v.elements.now)) };

    fn count(&self) -> u32 {
        know_laws::<M>();
        self.plan.count()
    }

    fn sum(&self, t: u32) -> (bool, M::Item) {
        know_laws::<M>();
        let (from, to) = self.plan.range(t);
        self.sum_between(from as usize, to as usize, M::unit())
    }
}
