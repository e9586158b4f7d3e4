//! The sums of segments, each found from the tile that holds the segment's last element. The first sum that does not fit 32 bits
//! is found while they are written, so that nothing is added up twice.

ghost use Rattle.std.specs.Prelude.{◌≡◌, Some, length, map, pos, IfOk, vec_len};
ghost use Rattle.std.specs.Option.{option_copied};
ghost use Rattle.cvl_base.specs.CheckedSums.{fitting};
ghost use Rattle.cvl_base.specs.declared.fault.FaultNo.TheVariants as no;
ghost use Rattle.cvl_base.specs.Elementwise.{values_from};
ghost use Rattle.cvl_base.specs.Gives.{Gives};
ghost use Rattle.tile_scans.specs.TiledSums.{flagged};
ghost use Rattle.checked_tile_scans.specs.Checked.{segment_totals, totals_before};

use crate::tile_totals::Totals;
use cvl_base::monoids::Add;
use cvl_base::{Fault, FaultNo, Memory, Packed, Refused};
use fresh::{CheckedWriter, Run, first_found, write_checked_in_runs};
use scan_walks::fitting;
use segdes::SegDes;
use sharing::ThreadCount;
use std::alloc::Allocator;
use std::thread::Threads;

/// The sums of the segments of a vector, with what stands before each tile.
#[derive(Drop)]
struct SegmentSums<'a, A: Allocator> {
    vector: &'a Totals<'a, A>,
    segments: &'a SegDes<A>,
    before: &'a [i64],
    ghost cut: { option_copied vector.now.segments ≡ Some segments.now },
    ghost known: { before.now
        ≡ totals_before vector.now.plan (flagged (option_copied vector.now.segments) vector.now.elements.now) },
}

/// The sums of the segments, from what stands before each tile. At most `threads` threads write them. `Overflow` at the first
/// segment whose sum does not fit 32 bits.
pub(crate) fn sums_known<R: Threads + Sync, A: Memory>(
    rt: &R,
    alloc: A,
    threads: ThreadCount,
    vector: &Totals<A>,
    segments: &SegDes<A>,
    before: &[i64],
) -> Result<Vec<i32, A>, Refused>
    requires cut { option_copied vector.now.segments ≡ Some segments.now }
    requires known { before.now
        ≡ totals_before vector.now.plan (flagged (option_copied vector.now.segments) vector.now.elements.now) }
    ensures values { Gives (λ v. v.items) result
        (values_from no.Overflow 0 (map fitting (segment_totals segments.now vector.now.elements.now))) }
    ensures one_each { IfOk result (λ v. vec_len v ≡ length segments.now) }
{
    let sums = SegmentSums {
        vector,
        segments,
        before,
    };
    let (written, outside) = write_checked_in_runs(rt, alloc, threads, &sums, segments.count())?;
    match outside {
        Some(place) => Err(Refused::Fault(Fault::at(FaultNo::Overflow, place as u32))),
        None => Ok(written),
    }
}

impl<'a, A: Allocator> SegmentSums<'a, A> {
    ghost use Rattle.std.specs.Prelude.{◌<◌, slice_index_or};

    /// The sum of segment `s`.
    fn sum(&self, s: usize) -> i64
        requires { s < length self.now.segments.now }
        ensures { result ≡ slice_index_or (segment_totals self.now.segments.now self.now.vector.now.elements.now) s (pos 0) }
    {
        let start = self.segments.start(s);
        self.vector
            .total_between(start, start + self.segments.length(s), self.before)
    }
}

impl<'a, A: Allocator> CheckedWriter<i32> for SegmentSums<'a, A> {
    ghost use Rattle.std.specs.Prelude.{◌≡◌, ◌+◌, ◌≤◌, [], length, map};
    ghost use Rattle.cvl_base.specs.CheckedSums.{fitting};
    ghost use Rattle.cvl_base.specs.Integers.{wrap};
    ghost use Rattle.fresh.specs.Found.{first_without};
    ghost use Rattle.fresh.specs.Parts.{part};
    ghost use Rattle.fresh.specs.Places.{stretch};
    ghost use Rattle.segdes.specs.Shares.{IsShareEnd};
    ghost use Rattle.checked_tile_scans.specs.Checked.{segment_totals};

    ghost whole = { λ sums. map wrap (segment_totals sums.segments.now sums.vector.now.elements.now) };

    ghost values = { λ sums. map fitting (segment_totals sums.segments.now sums.vector.now.elements.now) };

    ghost IsShare = { λ sums first room few threads places.
        IsShareEnd sums.segments.now first (first + room) few threads (first + places) };

    fn write(&self, run: Run<i32>) -> (Run<i32>, Option<usize>)
        requires empty { run.items ≡ [] }
        requires within { run.first + run.room
            ≤ length (map wrap (segment_totals self.now.segments.now self.now.vector.now.elements.now)) }
        ensures run { result.0 ≡ stretch run.block run.first (part
            (map wrap (segment_totals self.now.segments.now self.now.vector.now.elements.now)) run.first run.room) 0 }
        ensures found { result.1 ≡ first_without run.first (part
            (map fitting (segment_totals self.now.segments.now self.now.vector.now.elements.now)) run.first run.room) }
    {
        let mut run = run;
        let mut outside = None;
        while run.room() > 0 {
            let place = run.next_place();
            let sum = self.sum(place);
            outside = first_found(outside, fitting(&sum), place);
            run.push(Add::from_word(sum));
        }
        (run, outside)
    }

    /// Segments with about as many elements for each thread.
    #[tactic(auto, using(crate::proofs::SegmentTotals::totals_long))]
    fn share(&self, first: usize, room: usize, few: usize, threads: usize) -> usize {
        // its contract bounds the number of segments
        let _count = self.segments.count();
        self.segments.share_end(first, first + room, few, threads) - first
    }
}
