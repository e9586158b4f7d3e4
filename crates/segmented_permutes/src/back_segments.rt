//! The walk of a segmented back permute, which several threads may share: each checks indices and writes their elements at once,
//! segment by segment.

ghost use Rattle.std.specs.Prelude.{◌≡◌, ◌+◌, ◌-◌, ◌<◌, ◌≤◌, [], length, min};
ghost use Rattle.std.specs.Option.{option_or};
ghost use Rattle.fresh.specs.Found.{first_without};
ghost use Rattle.fresh.specs.Parts.{part};
ghost use Rattle.fresh.specs.Places.{stretch, with_items};
ghost use Rattle.permute_walks.specs.Indices.{each_or};
ghost use Rattle.segdes.specs.Starts.{start_of};
ghost use Rattle.segmented_permutes.specs.Backs.{IsSegmentedBack, values_at};

use fresh::{CheckedWriter, Run};
use permute_walks::{ByBlocks, OneByOne, PushAt};
use segdes::SegDes;
use sharing::share_of_first;
use std::alloc::Allocator;

/// At this average number of indices a segment, they are checked block by block.
const LONG: usize = 128;

/// The place found before, else the one found here.
// The test lets the loop over segments keep `found` as it is after each segment whose indices all take elements.
#[inline(always)]
fn first_of(found: Option<usize>, here: Option<usize>) -> Option<usize>
    ensures { result ≡ option_or found here }
{
    if here.is_some() {
        return found.or(here);
    }
    found
}

/// Takes the element at each index, segment by segment.
#[derive(Drop)]
pub(crate) struct SegmentsTaken<'a, T, A: Allocator> {
    pub(crate) source: &'a [T],
    pub(crate) index: &'a [i32],
    pub(crate) source_d: &'a SegDes<A>,
    pub(crate) index_d: &'a SegDes<A>,
    /// Taken if an index is no place of its segment of the source.
    pub(crate) other: T,
    ghost fits: { IsSegmentedBack source_d.now source.now index_d.now index.now },
}

impl<'a, T: Copy, A: Allocator> SegmentsTaken<'a, T, A> {
    /// Takes the rest of segment `s`, in which the run continues, or as much as there is room for. Returns the first place whose
    /// index takes nothing.
    #[inline(always)]
    fn take_segment<P: PushAt<T>>(&self, run: Run<T>, s: usize) -> (Run<T>, Option<usize>)
        requires segment { s < length self.now.index_d.now }
        requires begins { start_of self.now.index_d.now s ≤ run.first + length run.items }
        requires ends { run.first + length run.items ≤ start_of self.now.index_d.now (s + 1) }
        ensures run { result.0 ≡ with_items run (each_or self.now.other
            (part (values_at self.now.source_d.now self.now.source.now self.now.index_d.now self.now.index.now)
            (run.first + length run.items)
            (min (start_of self.now.index_d.now (s + 1) - (run.first + length run.items)) run.room))) }
        ensures found { result.1 ≡ first_without (run.first + length run.items)
            (part (values_at self.now.source_d.now self.now.source.now self.now.index_d.now self.now.index.now)
            (run.first + length run.items)
            (min (start_of self.now.index_d.now (s + 1) - (run.first + length run.items)) run.room)) }
    {
        let first = run.next_place();
        let last = self.index_d.start(s) + self.index_d.length(s);
        let count = (last - first).min(run.room());
        let start = self.source_d.start(s);
        let source = &self.source[start..start + self.source_d.length(s)];
        P::push_at(run, source, &self.index[first..first + count], self.other)
    }

    /// Takes as much as there is room for, segment by segment. Returns the first place whose index takes nothing.
    // Each segment but the last ends within the room, and the starts are carried along, so that a short one costs little beside
    // its indices.
    fn take_segments<P: PushAt<T>>(&self, run: Run<T>) -> (Run<T>, Option<usize>)
        requires empty { run.items ≡ [] }
        requires within { run.first + run.room ≤ length (each_or self.now.other
            (values_at self.now.source_d.now self.now.source.now self.now.index_d.now self.now.index.now)) }
        ensures run { result.0 ≡ stretch run.block run.first (part (each_or self.now.other
            (values_at self.now.source_d.now self.now.source.now self.now.index_d.now self.now.index.now)) run.first run.room) 0 }
        ensures found { result.1 ≡ first_without run.first
            (part (values_at self.now.source_d.now self.now.source.now self.now.index_d.now self.now.index.now)
            run.first run.room) }
    {
        let first = run.next_place();
        let begin = self.index_d.starts_before(first + 1).saturating_sub(1);
        let past = self.index_d.starts_before(first + run.room());
        if begin >= past {
            return (run, None);
        }
        let (widths, lengths) = (self.source_d.as_lengths(), self.index_d.as_lengths());
        let (mut start, mut end) = (
            self.source_d.start_or_total(begin),
            self.index_d.start_or_total(begin),
        );
        let (mut run, mut found) = (run, None);
        for s in begin..past - 1 {
            let source = &self.source[start..start + widths.length(s)];
            start += source.len();
            end += lengths.length(s);
            let index = &self.index[run.next_place()..end];
            let (next, here) = P::push_at(run, source, index, self.other);
            run = next;
            found = first_of(found, here);
        }
        let (run, here) = self.take_segment::<P>(run, past - 1);
        (run, first_of(found, here))
    }
}

impl<'a, T: Copy, A: Allocator> CheckedWriter<T> for SegmentsTaken<'a, T, A> {
    ghost use Rattle.std.specs.Prelude.{◌≡◌};
    ghost use Rattle.permute_walks.specs.Indices.{each_or};
    ghost use Rattle.segmented_permutes.specs.Backs.{values_at};
    ghost use Rattle.sharing.specs.Shares.{share_of_first};

    ghost whole = { λ w. each_or w.other (values_at w.source_d.now w.source.now w.index_d.now w.index.now) };

    ghost values = { λ w. values_at w.source_d.now w.source.now w.index_d.now w.index.now };

    ghost IsShare = { λ w first room few threads places. places ≡ share_of_first few threads room };

    fn write(&self, run: Run<T>) -> (Run<T>, Option<usize>)
        requires empty { run.items ≡ [] }
        requires within { run.first + run.room ≤ length (each_or self.now.other
            (values_at self.now.source_d.now self.now.source.now self.now.index_d.now self.now.index.now)) }
        ensures run { result.0 ≡ stretch run.block run.first (part (each_or self.now.other
            (values_at self.now.source_d.now self.now.source.now self.now.index_d.now self.now.index.now)) run.first run.room) 0 }
        ensures found { result.1 ≡ first_without run.first
            (part (values_at self.now.source_d.now self.now.source.now self.now.index_d.now self.now.index.now)
            run.first run.room) }
    {
        if self.index.len() / LONG >= self.index_d.count() {
            return self.take_segments::<ByBlocks>(run);
        }
        self.take_segments::<OneByOne>(run)
    }

    fn share(&self, _first: usize, room: usize, few: usize, threads: usize) -> usize {
        share_of_first(few, threads, room)
    }
}
