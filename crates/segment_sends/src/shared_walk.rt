//! A permute by segments in one walk that several threads share: each walks whole segments, by a buffer of its own.

ghost use Rattle.std.specs.Prelude.{◌≡◌, ◌+◌, ◌≤◌, List, length, map, None, vec_len};
ghost use denote.Param.Send.{Frees, IsSend, IsSync};
ghost use Rattle.cvl_base.specs.Limits.{most_places};
ghost use Rattle.permute_walks.specs.OneWalk.{IfMade};
ghost use Rattle.segdes.specs.Shares.{IsShareEnd};
ghost use Rattle.segment_sends.specs.SegmentDestinations.{destinations_in, fault_from, places_in};
ghost use Rattle.segment_sends.specs.Shares.{AreWithin, IsShare, IsWritten, permuted, sending};

use crate::one_walk::write_by_buffer;
use crate::segment_destinations::{SegmentDestinations, segment_count};
use cvl_base::{Memory, NoResources};
use fresh::{Room, Run};
use sharing::ThreadCount;
use std::thread::{Threads, join};

/// The elements that are sent, and what stands before in the places of the result.
// By this trait, and not as slices, they go to other threads beside the run of the result, whose elements are of the same type.
trait Sides<T> {
    ghost source: { Self → List T };

    ghost before: { Self → List T };

    fn source(&self) -> &[T]
        ensures { result.now ≡ source self.now };

    fn before(&self) -> &[T]
        ensures { result.now ≡ before self.now };
}

/// Two slices.
#[derive(Drop)]
struct BothSides<'a, T> {
    source: &'a [T],
    before: &'a [T],
}

impl<'a, T> Sides<T> for BothSides<'a, T> {
    ghost source = { λ b. b.source.now };

    ghost before = { λ b. b.before.now };

    fn source(&self) -> &[T] {
        self.source
    }

    fn before(&self) -> &[T] {
        self.before
    }
}

/// At which segment the share of the first few threads ends, where each has as many places of the index.
fn middle_of<D: SegmentDestinations>(
    segments: &D,
    begin: usize,
    end: usize,
    few: ThreadCount,
    threads: ThreadCount,
) -> usize
    requires cut { D.AreCut segments.now }
    requires no_more { few ≤ threads }
    requires order { begin ≤ end }
    requires within { end ≤ length (D.segments segments.now) }
    ensures { IsShareEnd (map (λ p. length p.1) (D.segments segments.now)) begin end few threads result }
{
    segments
        .descriptor()
        .share_end(begin, end, few.get(), threads.get())
}

/// Writes the places of a share of the segments, which at most so many threads share; false where a place of theirs is bad, or
/// there is no memory for a buffer.
#[cycle(halves)]
fn write_shared<
    T: Copy + Send,
    R: Threads + Sync,
    A: Memory,
    S: Sides<T> + Sync,
    D: SegmentDestinations + Sync,
>(
    rt: &R,
    alloc: A,
    sides: &S,
    segments: &D,
    threads: ThreadCount,
    begin: usize,
    end: usize,
    widest: usize,
    run: Run<T>,
) -> (Run<T>, bool)
    requires cut { D.AreCut segments.now }
    requires share { IsShare (sending (S.source sides.now) (D.segments segments.now) (S.before sides.now) widest) begin end run }
    ensures { IsWritten (sending (S.source sides.now) (D.segments segments.now) (S.before sides.now) widest) begin end run
        result.0 result.1 }
{
    if threads.get() < 2 {
        let source = sides.source();
        let before = sides.before();
        return write_by_buffer(alloc, source, before, segments, begin, end, widest, run);
    }
    let (fewer, others) = threads.split();
    let middle = middle_of(segments, begin, end, fewer, threads);
    let places = segments.places_before(middle) - run.first();
    let (front, back) = run.split_at(places);
    let (front, back) = write_both(
        rt, alloc, sides, segments, widest, fewer, begin, middle, front, others, end, back,
    );
    (front.0.joined(back.0), front.1 & back.1)
}

/// `write_shared` for two shares, each in a thread of its own: the first ends where that of the first few of the threads does.
#[cycle(halves)]
fn write_both<
    T: Copy + Send,
    R: Threads + Sync,
    A: Memory,
    S: Sides<T> + Sync,
    D: SegmentDestinations + Sync,
>(
    rt: &R,
    alloc: A,
    sides: &S,
    segments: &D,
    widest: usize,
    fewer: ThreadCount,
    begin: usize,
    middle: usize,
    front: Run<T>,
    others: ThreadCount,
    end: usize,
    back: Run<T>,
) -> ((Run<T>, bool), (Run<T>, bool))
    requires some { (1 ≤ fewer) × (1 ≤ others) }
    requires cut { D.AreCut segments.now }
    requires middle { IsShareEnd (map (λ p. length p.1) (D.segments segments.now)) begin end fewer (fewer + others) middle }
    requires front_share { IsShare (sending (S.source sides.now) (D.segments segments.now) (S.before sides.now) widest)
        begin middle front }
    requires back_share { IsShare (sending (S.source sides.now) (D.segments segments.now) (S.before sides.now) widest)
        middle end back }
    ensures front { IsWritten (sending (S.source sides.now) (D.segments segments.now) (S.before sides.now) widest)
        begin middle front result.0.0 result.0.1 }
    ensures back { IsWritten (sending (S.source sides.now) (D.segments segments.now) (S.before sides.now) widest)
        middle end back result.1.0 result.1.1 }
{
    let write_front = move || -> (Run<T>, bool)
        requires { IsSync R.row × IsSend T.row × IsSend A.row × Frees A.Allocator A.dealloc_token × IsSync S.row × IsSync D.row
            × IsSend D.OfSegment.row × IsSend D.A.row × IsSync D.A.row × (1 ≤ fewer) × D.AreCut segments.now
            × IsShare (sending (S.source sides.now) (D.segments segments.now) (S.before sides.now) widest) begin middle front }
        ensures { IsWritten (sending (S.source sides.entry.now) (D.segments segments.entry.now) (S.before sides.entry.now) widest)
            begin middle front result.0 result.1 }
    {
        write_shared(
            rt, alloc, sides, segments, fewer, begin, middle, widest, front,
        )
    };
    let write_back = move || -> (Run<T>, bool)
        requires { IsSync R.row × IsSend T.row × IsSend A.row × Frees A.Allocator A.dealloc_token × IsSync S.row × IsSync D.row
            × IsSend D.OfSegment.row × IsSend D.A.row × IsSync D.A.row × (1 ≤ others) × D.AreCut segments.now
            × IsShare (sending (S.source sides.now) (D.segments segments.now) (S.before sides.now) widest) middle end back }
        ensures { IsWritten (sending (S.source sides.entry.now) (D.segments segments.entry.now) (S.before sides.entry.now) widest)
            middle end back result.0 result.1 }
    {
        write_shared(
            rt, alloc, sides, segments, others, middle, end, widest, back,
        )
    };
    join(rt, write_front, write_back)
}

/// What a permute by segments leaves of what stands before, in one walk, which at most `threads` threads share: the element of
/// each place's sender, or what stands there where it has none. None where a place is bad, or there is no memory for a buffer.
/// `NoResources` where there is none for the result. No segment of the result is wider than `widest`.
pub fn permuted_by_segments<T, R, A, D>(
    rt: &R,
    alloc: A,
    threads: ThreadCount,
    source: &[T],
    before: &[T],
    segments: &D,
    widest: usize,
) -> Result<Option<Vec<T, A>>, NoResources>
where
    T: Copy + Send + Sync,
    R: Threads + Sync,
    A: Memory,
    D: SegmentDestinations + Sync,
    requires cut { D.AreCut segments.now }
    requires few { destinations_in (D.segments segments.now) ≤ most_places }
    requires as_long { places_in (D.segments segments.now) ≡ length before.now }
    requires within { AreWithin widest (D.segments segments.now) }
    ensures right { IfMade result (λ _. None ≡ fault_from 0 (D.segments segments.now)) }
    ensures written { IfMade result (λ v. v.items ≡ permuted source.now (D.segments segments.now) before.now) }
    ensures as_long { IfMade result (λ v. vec_len v ≡ length before.now) }
{
    let (room, run) = Room::new(alloc, before.len())?;
    let sides = BothSides { source, before };
    let count = segment_count(segments);
    let (run, right) = write_shared(rt, alloc, &sides, segments, threads, 0, count, widest, run);
    let elements = room.into_vec(run);
    if right { Ok(Some(elements)) } else { Ok(None) }
}
