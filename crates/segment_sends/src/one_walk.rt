//! A permute by segments in one walk, on one thread. A buffer holds the senders of one segment at a time. Their elements are
//! pushed as soon as no place of it is bad, and clear it. So it stays in the processor's cache, and only the result is written
//! besides.

ghost use Rattle.std.specs.Prelude.{◌≡◌, ◌+◌, ◌≤◌, false, true, length, replicate, None};
ghost use Rattle.fresh.specs.Parts.{part};
ghost use Rattle.fresh.specs.Places.{with_items};
ghost use Rattle.cvl_base.specs.Limits.{most_places};
ghost use Rattle.cvl_base.specs.Permutes.{first_fault, wrongs};
ghost use Rattle.segment_sends.specs.Shares.{IsShare, IsWritten, sending};
ghost use Rattle.permute_walks.specs.Senders.{nobody, senders_of, written_over};

use crate::segment_destinations::{SegmentDestinations, destinations_before};
use cvl_base::Memory;
use fresh::Run;
use permute_walks::{Destinations, NOBODY, element_of, send_places};

/// The most places of a short segment of the result.
const SHORT: usize = 32;

/// Pushes the element of each sender, or the value at its place if it is nobody.
// Inlined, so that what is known of the run stays in registers from segment to segment.
#[inline(always)]
fn push_elements<T: Copy>(run: Run<T>, source: &[T], values: &[T], senders: &[u32]) -> Run<T>
    requires room { length senders.now ≤ run.room }
    requires as_long { length values.now ≡ length senders.now }
    ensures { result ≡ with_items run (written_over source.now senders.now values.now) }
{
    let mut run = run;
    for k in 0..senders.len() {
        run.push(element_of(source, senders[k] as usize).unwrap_or(values[k]));
    }
    run
}

/// The same, and then each sender is nobody.
#[inline(always)]
fn push_and_clear<T: Copy>(run: Run<T>, source: &[T], values: &[T], senders: &mut [u32]) -> Run<T>
    requires room { length senders.old ≤ run.room }
    requires as_long { length values.now ≡ length senders.old }
    ensures pushed { result ≡ with_items run (written_over source.now senders.old values.now) }
    ensures cleared { senders.new ≡ replicate (length senders.old) nobody }
{
    let mut run = run;
    for k in 0..senders.len() {
        run.push(element_of(source, senders[k] as usize).unwrap_or(values[k]));
        senders[k] = NOBODY;
    }
    run
}

/// Pushes the element of each sender, or what stands before at the same place of the run if it is nobody. Then each sender is
/// nobody.
// A loop that clears what it reads takes longer for each place than two loops; only a short segment is walked once.
#[inline(always)]
fn push_over<T: Copy>(run: Run<T>, source: &[T], before: &[T], senders: &mut [u32]) -> Run<T>
    requires room { length senders.old ≤ run.room }
    requires within { run.first + length run.items + length senders.old ≤ length before.now }
    ensures pushed { result ≡ with_items run
        (written_over source.now senders.old (part before.now (run.first + length run.items) (length senders.old))) }
    ensures cleared { senders.new ≡ replicate (length senders.old) nobody }
{
    let (_, rest) = before.split_at(run.next_place());
    let (values, _) = rest.split_at(senders.len());
    if senders.len() <= SHORT {
        return push_and_clear(run, source, values, senders);
    }
    let run = push_elements(run, source, values, senders);
    senders.fill(NOBODY);
    run
}

/// Pushes what stands before into the remaining places.
fn push_rest<T: Copy>(run: Run<T>, before: &[T]) -> Run<T>
    requires { run.first + length run.items + run.room ≤ length before.now }
    ensures { result ≡ with_items run (part before.now (run.first + length run.items) run.room) }
{
    let (_, rest) = before.split_at(run.next_place());
    let (rest, _) = rest.split_at(run.room());
    run.extend_from_slice(rest)
}

/// Pushes the elements of one segment, whose first place stands at place `first`; false if one of its places is bad, and then
/// nothing is pushed. The buffer of senders is as long as the segment of the result; each is nobody at first, and again after
/// elements were pushed.
#[inline(always)]
fn push_segment<T: Copy, D: Destinations>(
    run: Run<T>,
    source: &[T],
    before: &[T],
    senders: &mut [u32],
    first: usize,
    destinations: &D,
) -> (Run<T>, bool)
    requires fresh { senders.old ≡ replicate (length senders.old) nobody }
    requires room { length senders.old ≤ run.room }
    requires within { run.first + length run.items + length senders.old ≤ length before.now }
    requires in_limit { first + length (D.destinations destinations.now) ≤ most_places }
    ensures cleared { result.1 ≡ true → senders.new ≡ replicate (length senders.old) nobody }
    ensures right { result.1 ≡ true → None ≡ first_fault first (wrongs (length senders.old) (D.destinations destinations.now)) }
    ensures pushed { result.1 ≡ true → result.0 ≡ with_items run (written_over source.now
        (senders_of first (D.destinations destinations.now) (length senders.old))
        (part before.now (run.first + length run.items) (length senders.old))) }
    ensures bad { result.1 ≡ false → result.0 ≡ run }
{
    match send_places(senders, first, destinations) {
        Ok(()) => (push_over(run, source, before, senders), true),
        Err(_) => (run, false),
    }
}

/// Writes the places of the segments from number `begin` up to the one before `end`; false if one of their places is bad. The
/// buffer of senders is as long as the widest segment of the result, and each is nobody.
fn write_segments<T: Copy, D: SegmentDestinations>(
    source: &[T],
    before: &[T],
    segments: &D,
    begin: usize,
    end: usize,
    senders: &mut [u32],
    run: Run<T>,
) -> (Run<T>, bool)
    requires cut { D.AreCut segments.now }
    requires fresh { senders.old ≡ replicate (length senders.old) nobody }
    requires share { IsShare (sending source.now (D.segments segments.now) before.now (length senders.old)) begin end run }
    ensures { IsWritten (sending source.now (D.segments segments.now) before.now (length senders.old)) begin end run
        result.0 result.1 }
{
    let mut run = run;
    let mut first = destinations_before(segments, begin);
    for s in begin..end {
        let (places, destinations) = segments.of_segment(s);
        let (buffer, _) = senders.split_at_mut(places);
        let (next, right) = push_segment(run, source, before, buffer, first, &destinations);
        if !right {
            return (push_rest(next, before), false);
        }
        run = next;
        first += destinations.count();
    }
    (run, true)
}

/// The same with a buffer of its own; false also if there is no memory for it.
pub(crate) fn write_by_buffer<T: Copy, A: Memory, D: SegmentDestinations>(
    alloc: A,
    source: &[T],
    before: &[T],
    segments: &D,
    begin: usize,
    end: usize,
    widest: usize,
    run: Run<T>,
) -> (Run<T>, bool)
    requires cut { D.AreCut segments.now }
    requires share { IsShare (sending source.now (D.segments segments.now) before.now widest) begin end run }
    ensures { IsWritten (sending source.now (D.segments segments.now) before.now widest) begin end run result.0 result.1 }
{
    match vec![in alloc; NOBODY; widest] {
        Ok(mut senders) => write_segments(source, before, segments, begin, end, &mut senders, run),
        Err(_) => (push_rest(run, before), false),
    }
}
