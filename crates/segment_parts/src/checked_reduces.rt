//! The checked sums of the segments that start in a part, which never wrap.

ghost use Rattle.std.specs.Prelude.{◌≡◌, ◌+◌, ◌+ℤ◌, ◌==◌, ◌<◌, ◌≤◌, if◌then◌else◌, length, pos};
ghost use Rattle.c_calls.specs.Rooms.{Fills};
ghost use Rattle.cvl_base.specs.CheckedSums.{fitting};
ghost use Rattle.cvl_base.specs.Exact.{total_of};
ghost use Rattle.cvl_base.specs.Limits.{most_places};
ghost use Rattle.cvl_base.specs.Rooms.{Overwrites, in_room};
ghost use Rattle.range_walks.specs.Ranges.{reduces_of};
ghost use Rattle.scan_walks.specs.Fronts.{fitting_front};
ghost use Rattle.segment_parts.specs.CheckedSums.{checked_part_reduce_by, checked_part_reduces_of};
ghost use Rattle.segment_parts.specs.Reduces.{join_last};

use crate::reduces::is_part;
use c_calls::checks::{check_limit, segments};
use cvl_base::{Fault, FaultNo, check_agree};
use scan_walks::{fitting, total};
use segdes::SegLengths;

/// The sum of a segment, if it fits 32 bits. What goes on behind the part is added to that of the last one.
fn segment_sum(behind: &i64, is_last: bool, segment: &[i32]) -> Option<i32>
    requires { length segment.now ≤ most_places }
    ensures { result ≡ fitting (if is_last then total_of segment.now +ℤ behind.now else total_of segment.now) }
{
    let sum = total(segment);
    if !is_last {
        return fitting(&sum);
    }
    match sum.checked_add(*behind) {
        Some(whole) => fitting(&whole),
        None => None,
    }
}

/// How many of the sums of segments fit 32 bits, from the first one on. The last segment has all elements that are left, and
/// goes on behind them.
fn fitting_sums(behind: &i64, lengths: &SegLengths, a: &[i32]) -> usize
    requires { length a.now ≤ most_places }
    ensures front { result ≡ fitting_front (join_last ◌+ℤ◌ (reduces_of ◌+ℤ◌ (pos 0) lengths.now a.now) behind.now) }
    ensures within { result ≤ length lengths.now }
{
    let mut rest = a;
    for s in 0..lengths.count() {
        let (segment, others) = rest.split_at(lengths.length(s).min(rest.len()));
        if segment_sum(behind, s + 1 == lengths.count(), segment).is_none() {
            return s;
        }
        rest = others;
    }
    lengths.count()
}

/// Writes the sums of segments, which fit 32 bits, into a room that is as long.
fn write_sums(behind: &i64, lengths: &SegLengths, a: &[i32], out: &mut [i32])
    requires in_limit { length a.now ≤ most_places }
    requires fit { length lengths.now
        ≤ fitting_front (join_last ◌+ℤ◌ (reduces_of ◌+ℤ◌ (pos 0) lengths.now a.now) behind.now) }
    requires room { length lengths.now ≡ length out.old }
    ensures { out.new ≡ join_last ◌+ℤ◌ (reduces_of ◌+ℤ◌ (pos 0) lengths.now a.now) behind.now }
{
    let mut rest = a;
    for s in 0..lengths.count() {
        let (segment, others) = rest.split_at(lengths.length(s).min(rest.len()));
        out[s] = segment_sum(behind, s + 1 == lengths.count(), segment).unwrap_or(0);
        rest = others;
    }
}

/// Writes the checked sums of the segments that start in a part of a segmented vector into a room. The first `head` elements
/// go on from a segment that began before the part. Then there are segments with these lengths, the last of which may be
/// longer than what the part has of it; its elements behind the part add up to `behind`.
///
/// `LengthMismatch`, without a place, if `head` and the lengths but the last are more than the elements, or if `head` and all
/// lengths are fewer; then `Overflow` at the first segment whose sum does not fit 32 bits, counted from the first that starts
/// in the part; then `LengthMismatch`, without a place, if the room has not one place for each length. The room is then as
/// before. The part has at most 2,147,483,647 elements. Source: CVL's segmented reduces.
pub fn checked_part_reduces_over(
    behind: &i64,
    head: usize,
    lengths: &SegLengths,
    a: &[i32],
    out: &mut [i32],
) -> Result<(), Fault>
    requires in_limit { length a.now ≤ most_places }
    ensures { Overwrites (in_room (length out.old) (checked_part_reduces_of behind.now head lengths.now a.now))
        result out.old out.new }
{
    if !is_part(head, lengths, a.len()) {
        return Err(Fault::new(FaultNo::LengthMismatch));
    }
    let (_front, others) = a.split_at(head);
    let front = fitting_sums(behind, lengths, others);
    if front < lengths.count() {
        return Err(Fault::at(FaultNo::Overflow, front as u32));
    }
    check_agree(lengths.count(), out.len())?;
    write_sums(behind, lengths, others, out);
    Ok(())
}

/// [`checked_part_reduces_over`] of a part whose segments are given as their lengths, which are checked before the sums, as
/// [`segments`] says; a part has at most 2,147,483,647 elements, else `TooLong`, without a place.
pub fn part_checked_reduce(
    behind: &i64,
    head: usize,
    lengths: &[i32],
    a: &[i32],
    out: &mut [i32],
) -> Result<(), Fault>
    ensures { Fills (checked_part_reduce_by behind.now head lengths.now a.now) result out.old out.new }
{
    check_limit(a)?;
    let d = segments(lengths)?;
    checked_part_reduces_over(behind, head, &d, a, out)
}
