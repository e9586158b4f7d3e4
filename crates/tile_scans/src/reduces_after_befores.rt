//! The reduces of segments, written in runs once what stands before each tile is known.

ghost use Rattle.std.specs.Prelude.{◌≡◌, ◌≤◌, Some};
ghost use Rattle.std.specs.Option.{option_copied};

use crate::known_befores::KnownBefores;
use crate::steps::Steps;
use cvl_base::Packed;
use cvl_base::monoid::know_laws;
use fresh::Run;
use scan_walks::{Reading, seg_reduces_into};
use segdes::SegDes;
use std::alloc::Allocator;

/// The reduces of the segments of a vector that is not empty, with what stands before each tile.
#[derive(Drop)]
pub(crate) struct KnownReduces<'a, M: Packed, X: Copy, E: Reading<X, M::Item>, A: Allocator> {
    pub(crate) known: &'a KnownBefores<'a, M, X, E, A>,
    pub(crate) segments: &'a SegDes<A>,
    ghost cut: { option_copied known.now.vector.now.segments ≡ Some segments.now },
    ghost filled: { 1 ≤ known.now.vector.now.plan.len },
}

impl<'a, M: Packed, X: Copy, E: Reading<X, M::Item>, A: Allocator> Steps<M::Item>
    for KnownReduces<'a, M, X, E, A> {
    ghost use Rattle.std.specs.Prelude.{◌+◌, ◌<◌, ◌≤◌, length, map};
    ghost use Rattle.scan_walks.specs.Ranges.{reduces_of};
    ghost use Rattle.tile_scans.specs.Written.{IsWrittenOn, next_of};

    ghost whole = { λ reduces. reduces_of M.join M.unit reduces.segments.now
        (map E.item reduces.known.now.vector.now.elements.now) };

    /// The step takes the segments that end in the same tile as the next one. Of that one it reads only the elements in the tile,
    /// since what stands before them is known.
    fn write_on(&self, run: Run<M::Item>) -> Run<M::Item>
        requires some { 0 < run.room }
        requires within { next_of run + run.room ≤ length (reduces_of M.join M.unit self.now.segments.now
            (map E.item self.now.known.now.vector.now.elements.now)) }
        ensures { IsWrittenOn (reduces_of M.join M.unit self.now.segments.now
            (map E.item self.now.known.now.vector.now.elements.now)) run result }
    {
        know_laws::<M>();
        let (elements, plan, segments) = (
            self.known.vector.elements,
            self.known.vector.plan,
            self.segments,
        );
        let first = run.next_place();
        let start = segments.start(first);
        let end = start + segments.length(first);
        let t = plan.tile_at(end.max(1) as u32 - 1);
        let (from, to) = plan.range(t);
        let from = from as usize;
        let ended = segments.starts_before(to as usize).saturating_sub(1);
        let next = ended.max(first + 1).min(first + run.room());
        if start < from {
            let before = self.known.before_place(t, from);
            return seg_reduces_into::<M, X, E, A>(
                run, elements, segments, first, next, from, before,
            );
        }
        seg_reduces_into::<M, X, E, A>(run, elements, segments, first, next, start, M::unit())
    }
}
