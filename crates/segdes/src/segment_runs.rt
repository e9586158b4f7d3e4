//! Vectors whose segments each hold a list of their own, written in runs.

ghost use Rattle.std.specs.Prelude.{◌≡◌, ◌+◌, ◌-◌, ◌^◌, ◌<◌, ◌≤◌, ◌++◌, List, [], length, map, slice_index_or, sum};
ghost use Rattle.std.specs.Option.{MatchOption};
ghost use Rattle.cvl_base.specs.Lists.{joined};
ghost use Rattle.fresh.specs.Parts.{part};
ghost use Rattle.fresh.specs.Places.{stretch};
ghost use Rattle.segdes.specs.Starts.{Spans};

use crate::descriptor::SegDes;
use fresh::{Run, Writer};
use std::alloc::Allocator;

/// What the segments of a vector hold: a list each, as long as the segment.
pub trait Segments {
    /// An item of a list.
    type Item;

    /// The allocator of the descriptor.
    type A: Allocator;

    ghost lists: { Self → List (List Self.Item) };

    /// The descriptor of the segments.
    fn descriptor(&self) -> &SegDes<Self::A>
        ensures { result.now ≡ map length (lists self.now) };

    /// Pushes `count` items of segment `s`, from the one at `from` on.
    fn push_part(
        &self,
        run: Run<Self::Item>,
        s: usize,
        from: usize,
        count: usize,
    ) -> Run<Self::Item>
        requires segment { s < length (lists self.now) }
        requires within { from + count ≤ length (slice_index_or (lists self.now) s []) }
        requires room { count ≤ run.room }
        ensures { result ≡ stretch run.block run.first (run.items ++ part (slice_index_or (lists self.now) s []) from count)
            (run.room - count) };
}

/// Writes the lists of segments in order.
#[derive(Drop)]
pub struct EndToEnd<S: Segments + Copy> {
    /// The segments.
    pub segments: S,
}

impl<S: Segments + Copy> Writer<S::Item> for EndToEnd<S> {
    ghost whole = { λ e. joined (S.lists e.segments) };

    /// Goes from the segment in which the run begins, without the items that stand before the run, to the last one that starts
    /// before its end, of which it writes as many items as there is room for.
    fn write(&self, mut run: Run<S::Item>) -> Run<S::Item>
        requires empty { run.items ≡ [] }
        requires within { run.first + run.room ≤ length (joined (S.lists self.now.segments)) }
        ensures { result ≡ stretch run.block run.first (part (joined (S.lists self.now.segments)) run.first run.room) 0 }
    {
        // copied, since the loop writes memory, which might be that of the struct
        let segments = self.segments;
        let d = segments.descriptor();
        let first = run.next_place();
        let Some((begin, from, last)) = span(d, first, first + run.room()) else {
            return run;
        };
        if begin == last {
            let count = run.room();
            return segments.push_part(run, last, from, count);
        }
        // by itself, so that the loop over the others leaves nothing out
        let count = d.length(begin) - from;
        run = segments.push_part(run, begin, from, count);
        for s in begin + 1..last {
            run = segments.push_part(run, s, 0, d.length(s));
        }
        let room = run.room();
        segments.push_part(run, last, 0, room)
    }
}

/// The segment in which the places from `first` to the one before `past` begin, how many items of it stand before them, and the
/// last segment that starts before their end; none if there is no place.
fn span<A: Allocator>(d: &SegDes<A>, first: usize, past: usize) -> Option<(usize, usize, usize)>
    requires in_order { first ≤ past }
    requires within { past ≤ sum d.now }
    requires fits { past < 2 ^ 63 }
    ensures { MatchOption result (past ≡ first) (λ s. Spans d.now first past s.0 s.1 s.2) }
{
    let begin = d.starts_before(first + 1).saturating_sub(1);
    let end = d.starts_before(past);
    if begin >= end {
        return None;
    }
    Some((begin, first - d.start(begin), end - 1))
}
