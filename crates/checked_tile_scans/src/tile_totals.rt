//! Vectors of integers in tiles, flat and segmented, added up over whole numbers, which never wrap.

ghost use Rattle.std.specs.Prelude.{◌≡◌, ◌+ℤ◌, ◌<◌, ◌≤◌, true, pos, IfOk, length};
ghost use Rattle.std.specs.List.{list_all};
ghost use Rattle.std.specs.Option.{option_copied};
ghost use Rattle.cvl_base.specs.ItemWords.{is_number};
ghost use Rattle.cvl_base.specs.Limits.{most_elements};
ghost use Rattle.tile_scans.specs.TiledSums.{elements_of, flagged};
ghost use Rattle.checked_tile_scans.specs.Checked.{totals_before};

use boards::Tiles;
use crew::Gate;
use cvl_base::monoids::Exact;
use cvl_base::{Memory, NoResources};
use scan_walks::{fitting_of_range, fitting_of_scan, know_numbers, total, total_of_range};
use segdes::SegDes;
use sharing::{LONG_TILE, Pace};
use std::alloc::Allocator;
use std::thread::Threads;
use tile_plan::Plan;
use tile_scans::race_for_befores;

/// A vector of integers in tiles. Without a descriptor it is flat. Its tiles' sums race as numbers of 54 bits, which they all
/// fit.
#[derive(Drop)]
pub(crate) struct Totals<'a, A: Allocator> {
    pub(crate) elements: &'a [i32],
    pub(crate) segments: Option<&'a SegDes<A>>,
    pub(crate) plan: Plan,
    ghost numbers: { list_all is_number elements.now ≡ true },
    ghost agrees: { elements_of (option_copied segments) (length elements.now) ≡ length elements.now },
    ghost whole: { plan.len ≡ length elements.now },
    ghost few: { plan.len ≤ most_elements },
    ghost some: { 1 ≤ plan.tile },
}

impl<'a, A: Allocator> Totals<'a, A> {
    ghost use Rattle.std.specs.Prelude.{ℕ, slice_range, take};
    ghost use Rattle.cvl_base.specs.Exact.{total_of};
    ghost use Rattle.scan_walks.specs.Fronts.{fitting_front};
    ghost use Rattle.scan_walks.specs.Ranges.{range_scan_of};
    ghost use Rattle.tile_plan.specs.Ranges.{tile_count};
    ghost use Rattle.tile_scans.specs.TiledSums.{tile_of};
    ghost use Rattle.checked_tile_scans.specs.Checked.{total_since};

    /// A vector of at most 4,194,304 elements, with its descriptor if it has one, in tiles of `tile` elements, at least one.
    pub(crate) fn new(
        elements: &'a [i32],
        segments: Option<&'a SegDes<A>>,
        tile: u32,
    ) -> Totals<'a, A>
        requires agrees { elements_of (option_copied segments) (length elements.now) ≡ length elements.now }
        requires few { length elements.now ≤ most_elements }
        requires some { 1 ≤ tile }
        ensures elements { result.elements.now ≡ elements.now }
        ensures segments { option_copied result.segments ≡ option_copied segments.entry }
        ensures plan { result.plan ≡ record { len = length elements.now; tile = tile } }
    {
        know_numbers(elements);
        Totals {
            elements,
            segments,
            plan: Plan::new(elements.len() as u32, tile),
        }
    }

    /// Whether a segment starts in tile `t`, and what its elements add up to since the last start.
    fn total(&self, t: u32) -> (bool, i64)
        requires { t < tile_count self.now.plan.len self.now.plan.tile }
        ensures { result ≡ total_since (tile_of self.now.plan.len self.now.plan.tile
            (flagged (option_copied self.now.segments) self.now.elements.now) t) }
    {
        let (from, to) = self.plan.range(t);
        let (from, to) = (from as usize, to as usize);
        match self.segments {
            None => (false, total(&self.elements[from..to])),
            Some(d) => total_of_range(self.elements, d, from, to),
        }
    }

    /// How many results of the scan of tile `t` fit 32 bits, from the first one on, if `before` stands before the tile.
    pub(crate) fn fitting(&self, t: u32, before: i64) -> usize
        requires { t < tile_count self.now.plan.len self.now.plan.tile }
        ensures { result ≡ fitting_front (range_scan_of ◌+ℤ◌ (pos 0) before (tile_of self.now.plan.len self.now.plan.tile
            (flagged (option_copied self.now.segments) self.now.elements.now) t)) }
    {
        let (from, to) = self.plan.range(t);
        let (from, to) = (from as usize, to as usize);
        match self.segments {
            None => fitting_of_scan(before, &self.elements[from..to]),
            Some(d) => fitting_of_range(self.elements, d, from, to, before),
        }
    }

    /// The sum of the elements from place `start` to the one before place `end`, in which no segment starts but the first, from
    /// what stands before each tile. Reads no element before the tile that holds the last one.
    pub(crate) fn total_between(&self, start: usize, end: usize, before: &[i64]) -> i64
        requires in_order { start ≤ end }
        requires within { end ≤ length self.now.elements.now }
        requires known { before.now
            ≡ totals_before self.now.plan (flagged (option_copied self.now.segments) self.now.elements.now) }
        requires open { (place : ℕ) → start < place → place ≤ end
            → (total_since (take place (flagged (option_copied self.now.segments) self.now.elements.now))).1
            ≡ total_of (slice_range self.now.elements.now start place) }
        ensures { result ≡ total_of (slice_range self.now.elements.now start end) }
    {
        // nothing stands before the only tile, and the division that finds a tile takes longer than a short segment
        if before.len() < 2 || start == end {
            return total(&self.elements[start..end]);
        }
        let t = self.plan.tile_at((end - 1) as u32);
        let (from, _) = self.plan.range(t);
        let from = from as usize;
        if start < from {
            let own = total(&self.elements[from..end]);
            return before[t as usize] + own;
        }
        total(&self.elements[start..end])
    }
}

impl<'a, A: Allocator> Tiles for Totals<'a, A> {
    ghost use Rattle.std.specs.Prelude.{pos};
    ghost use Rattle.std.specs.Option.{option_copied};
    ghost use Rattle.cvl_base.specs.Exact.{exact_sum_of};
    ghost use Rattle.tile_scans.specs.TiledSums.{flagged, sums_of};

    type M = Exact;

    ghost sums = { λ v. sums_of exact_sum_of (pos 0) v.plan.len v.plan.tile (flagged (option_copied v.segments) v.elements.now) };

    fn count(&self) -> u32 {
        self.plan.count()
    }

    fn sum(&self, t: u32) -> (bool, i64) {
        self.total(t)
    }
}

/// What stands before each tile of a vector. Workers race for the tiles, tell their sums and their prefixes, and pass the gate at
/// each of the four points of a tile; one long tile starts no thread, reads no element, and nobody passes the gate. Only the
/// answer's memory is kept, 8 bytes a tile.
///
/// Source: Merrill and Garland's decoupled look-back.
pub(crate) fn race_for_totals<R: Threads + Sync, A: Memory, G: Gate>(
    rt: &R,
    alloc: A,
    pace: Pace,
    vector: &Totals<A>,
    gate: &G,
) -> Result<Vec<i64, A>, NoResources>
    ensures { IfOk result (λ before. before.items
        ≡ totals_before vector.now.plan (flagged (option_copied vector.now.segments) vector.now.elements.now)) }
{
    if pace.tile() >= LONG_TILE && vector.plan.count() == 1 {
        return Ok(Vec::from_elem(alloc, 0, 1)?);
    }
    let before = race_for_befores(rt, alloc, pace, vector, gate)?;
    Ok(before)
}
