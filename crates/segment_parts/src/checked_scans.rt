//! The checked scan of a part, whose sums never wrap.

ghost use Rattle.std.specs.Prelude.{◌≡◌, ◌+◌, ◌+ℤ◌, ◌≤◌, length, pos, sum};
ghost use Rattle.c_calls.specs.Rooms.{Fills};
ghost use Rattle.cvl_base.specs.Limits.{most_places};
ghost use Rattle.cvl_base.specs.Rooms.{Overwrites, in_room};
ghost use Rattle.range_walks.specs.Ranges.{scans_of};
ghost use Rattle.scan_walks.specs.Fronts.{fitting_front};
ghost use Rattle.segment_parts.specs.CheckedSums.{checked_part_scan_by, checked_part_scan_of};
ghost use Rattle.segment_parts.specs.Parts.{scans_in_part};

use crate::parts::{check_fits, part_scan_over};
use c_calls::checks::{check_limit, segments};
use cvl_base::monoids::Add;
use cvl_base::{Fault, FaultNo};
use scan_walks::{checked_seg_scan_over, fitting, fitting_of_scan, know_numbers};
use segdes::SegLengths;

/// How many of the sums of whole segments fit 32 bits, from the first one on.
fn fitting_of_whole(lengths: &SegLengths, a: &[i32]) -> usize
    requires { sum lengths.now ≡ length a.now }
    ensures front { result ≡ fitting_front (scans_of ◌+ℤ◌ (pos 0) lengths.now a.now) }
    ensures within { result ≤ length a.now }
{
    // without a room nothing is written, and only a sum that does not fit has a place
    match checked_seg_scan_over(a, lengths, &mut []) {
        Ok(()) => a.len(),
        Err(fault) => match fault.place {
            Some(place) => place as usize,
            None => a.len(),
        },
    }
}

/// How many of the sums in a part fit 32 bits, from the first one on.
fn fitting_in_part(before: &i64, head: usize, lengths: &SegLengths, a: &[i32]) -> usize
    requires { head + sum lengths.now ≤ length a.now }
    ensures front { result ≡ fitting_front (scans_in_part ◌+ℤ◌ (pos 0) before.now head lengths.now a.now) }
    ensures within { result ≤ length a.now }
{
    let (front, others) = a.split_at(head);
    let (whole, behind) = others.split_at(lengths.total());
    let in_head = fitting_of_scan(*before, front);
    if in_head < front.len() {
        return in_head;
    }
    let in_whole = fitting_of_whole(lengths, whole);
    if in_whole < whole.len() {
        return front.len() + in_whole;
    }
    front.len() + whole.len() + fitting_of_scan(0, behind)
}

/// Writes the checked scan of a part of a segmented vector into a room: the sums of [`part_scan_over`], which never wrap. The
/// first `head` elements go on from `before`.
///
/// `LengthMismatch`, without a place, if `head` and the lengths are more than the elements; then `Overflow` at the first sum
/// that does not fit 32 bits, at its place in the part; then `LengthMismatch`, without a place, if the room is not as long as
/// the part. The room is then as before. The part has at most 2,147,483,647 elements. Source: Blelloch's segmented scans.
pub fn checked_part_scan_over(
    before: &i64,
    head: usize,
    lengths: &SegLengths,
    a: &[i32],
    out: &mut [i32],
) -> Result<(), Fault>
    requires in_limit { length a.now ≤ most_places }
    ensures { Overwrites (in_room (length out.old) (checked_part_scan_of before.now head lengths.now a.now))
        result out.old out.new }
{
    check_fits(head, lengths, a)?;
    let front = fitting_in_part(before, head, lengths, a);
    if front < a.len() {
        return Err(Fault::at(FaultNo::Overflow, front as u32));
    }
    // all sums fit, so that those that wrap are the same; without a head they may start from any number
    let start = fitting(before).unwrap_or(0);
    know_numbers(&[start]);
    know_numbers(a);
    part_scan_over::<Add>(start, head, lengths, a, out)
}

/// [`checked_part_scan_over`] of a part whose whole segments are given as their lengths, which are checked before the sums, as
/// [`segments`] says; a part has at most 2,147,483,647 elements, else `TooLong`, without a place.
pub fn part_checked_scan(
    before: &i64,
    head: usize,
    lengths: &[i32],
    a: &[i32],
    out: &mut [i32],
) -> Result<(), Fault>
    ensures { Fills (checked_part_scan_by before.now head lengths.now a.now) result out.old out.new }
{
    check_limit(a)?;
    let d = segments(lengths)?;
    checked_part_scan_over(before, head, &d, a, out)
}
