//! Permutes of segments into the caller's room, on the calling thread, for code that has no runtime.
//!
//! Each reports the faults of the permute first, and then `LengthMismatch`, without a place, if the room is not as long as the
//! result. Only then does it write to the room. A back permute takes no memory. A simple permute takes a byte for each place of
//! its longest segment, and memory for a descriptor and the senders only to find its first fault; the others take 4 bytes a place
//! for the senders. Both read lengths in place, since each of their walks takes whole segments in turn.

ghost use Rattle.std.specs.Prelude.{◌≡◌, ◌≤◌, List, Result, length, sum};
ghost use Rattle.cvl_base.specs.declared.fault.Fault.{Fault};
ghost use Rattle.cvl_base.specs.Limits.{most_places};
ghost use Rattle.cvl_base.specs.Rooms.{Overwrites, OverwritesOr, in_room};
ghost use Rattle.cvl_base.specs.SegmentedCalls.{seg_back_of, seg_default_of, seg_select_of, seg_simple_of};
ghost use Rattle.permute_walks.specs.Before.{values_of};
ghost use Rattle.segment_sends.specs.SegmentDestinations.{destinations_in, places_in};
ghost use Rattle.segmented_permutes.specs.SegmentPermutes.{IsSegmentPermute};

use crate::segment_gathers::{check_segments, gather_segments_over};
use cvl_base::{Fault, Memory, Refused, check_agree, true_count};
use permute_walks::Before;
use permutes::elements_of_senders_over;
use segdes::{SegDes, SegLengths, check_total};
use segment_sends::{
    AllInSegments, FlaggedInSegments, SegmentDestinations, are_permutations, scatter_segments_over,
    segment_senders_alone,
};

/// A permute in two walks, the first of which finds the senders.
fn permuted_over<T: Copy, A: Memory, D: SegmentDestinations>(
    alloc: A,
    source: &[T],
    segments: &D,
    before: Before<T>,
    out: &mut [T],
) -> Result<(), Refused>
    requires cut { D.AreCut segments.now }
    requires few { destinations_in (D.segments segments.now) ≤ most_places }
    requires whole { places_in (D.segments segments.now) ≡ length (values_of before) }
    ensures { (meaning : Result (List T) Fault) → IsSegmentPermute source.now (D.segments segments.now) before.entry meaning
        → OverwritesOr (in_room (length out.old) meaning) result out.old out.new }
{
    let found = segment_senders_alone(alloc, before.values().len(), segments);
    elements_of_senders_over(source, found, before, out)
}

/// A simple permute from its senders, or its first fault.
fn simple_by_senders<T: Copy, A: Memory>(
    alloc: A,
    source: &[T],
    index: &[i32],
    d: &SegLengths,
    out: &mut [T],
) -> Result<(), Refused>
    requires source_total { sum d.now ≡ length source.now }
    requires total { sum d.now ≡ length index.now }
    requires in_limit { length index.now ≤ most_places }
    ensures { OverwritesOr (in_room (length out.old) (seg_simple_of source.now index.now d.now)) result out.old out.new }
{
    let d = SegDes::of_lengths(alloc, d)?;
    let segments = AllInSegments {
        index,
        d: &d,
        result_d: &d,
    };
    permuted_over(alloc, source, &segments, Before::Any(source), out)
}

/// [`seg_simple`](crate::seg_simple) into a room.
pub fn seg_simple_over<T: Copy, A: Memory>(
    alloc: A,
    source: &[T],
    index: &[i32],
    d: &SegLengths,
    out: &mut [T],
) -> Result<(), Refused>
    requires in_limit { length index.now ≤ most_places }
    ensures { OverwritesOr (in_room (length out.old) (seg_simple_of source.now index.now d.now)) result out.old out.new }
{
    d.check_total(source)?;
    d.check_total(index)?;
    if are_permutations(alloc, index, d)? {
        check_agree(index.len(), out.len())?;
        scatter_segments_over(source, index, d, out);
        return Ok(());
    }
    simple_by_senders(alloc, source, index, d, out)
}

/// [`seg_select`](crate::seg_select) into a room.
pub fn seg_select_over<T: Copy, A: Memory>(
    alloc: A,
    source: &[T],
    index: &[i32],
    flags: &[bool],
    d: &SegDes<A>,
    out: &mut [T],
) -> Result<(), Refused>
    requires in_limit { length index.now ≤ most_places }
    ensures { OverwritesOr (in_room (length out.old) (seg_select_of source.now index.now flags.now d.now))
        result out.old out.new }
{
    check_total(source, d)?;
    check_total(index, d)?;
    check_total(flags, d)?;
    let segments = FlaggedInSegments { index, flags, d };
    let (values, _) = source.split_at(true_count(flags));
    permuted_over(alloc, source, &segments, Before::Any(values), out)
}

/// [`seg_default_into`](crate::seg_default_into) into a room.
pub fn seg_default_into_over<T: Copy, A: Memory>(
    alloc: A,
    source: &[T],
    index: &[i32],
    defaults: &[T],
    source_d: &SegDes<A>,
    default_d: &SegDes<A>,
    out: &mut [T],
) -> Result<(), Refused>
    requires in_limit { length index.now ≤ most_places }
    ensures { OverwritesOr (in_room (length out.old)
        (seg_default_of source.now index.now defaults.now source_d.now default_d.now))
        result out.old out.new }
{
    check_total(source, source_d)?;
    check_total(index, source_d)?;
    check_total(defaults, default_d)?;
    check_agree(source_d.count(), default_d.count())?;
    let segments = AllInSegments {
        index,
        d: source_d,
        result_d: default_d,
    };
    permuted_over(alloc, source, &segments, Before::Defaults(defaults), out)
}

/// [`seg_back`](crate::seg_back) into a room.
pub fn seg_back_over<T: Copy>(
    source: &[T],
    index: &[i32],
    source_d: &SegLengths,
    index_d: &SegLengths,
    out: &mut [T],
) -> Result<(), Fault>
    requires in_limit { length index.now ≤ most_places }
    ensures { Overwrites (in_room (length out.old) (seg_back_of source.now index.now source_d.now index_d.now))
        result out.old out.new }
{
    source_d.check_total(source)?;
    index_d.check_total(index)?;
    check_agree(source_d.count(), index_d.count())?;
    check_segments(index, source_d, index_d)?;
    check_agree(index.len(), out.len())?;
    gather_segments_over(source, index, source_d, index_d, out);
    Ok(())
}
