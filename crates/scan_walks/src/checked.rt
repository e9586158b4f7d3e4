//! Scans and sums that never wrap, on the calling thread.
//!
//! Before anything is written, the first result of a scan that does not fit 32 bits is searched for. If there is none, the
//! results are those of the scan that wraps.

ghost use Rattle.std.specs.Prelude.{◌≡◌, ◌≤◌, IfOk, MatchResult, Ok, Err, length, pos, vec_len};
ghost use Rattle.cvl_base.specs.CheckedSums.{checked_reduce_of, checked_scan_of, checked_seg_reduce_of, checked_seg_scan_of};
ghost use Rattle.cvl_base.specs.CheckedSums.{fitting};
ghost use Rattle.cvl_base.specs.Exact.{total_of};
ghost use Rattle.cvl_base.specs.Folds.{scan_of};
ghost use Rattle.cvl_base.specs.Gives.{Gives};
ghost use Rattle.cvl_base.specs.Integers.{sum_of};
ghost use Rattle.cvl_base.specs.Limits.{most_places};
ghost use Rattle.cvl_base.specs.Rooms.{Overwrites, in_room};
ghost use Rattle.cvl_base.specs.SegmentedCalls.{seg_scan_of};

use crate::fronts::fitting_of_scan;
use crate::numbers::{fitting, know_numbers};
use crate::scans_over::{scan_over, seg_scan_over};
use crate::segment_fronts::fitting_of_scans;
use crate::vectors::seg_scan_vec;
use crate::whole_sums::total;
use cvl_base::monoids::Add;
use cvl_base::{Fault, FaultNo, Refused};
use range_walks::{Itself, scan_vec};
use segdes::{SegDes, SegLengths};
use std::alloc::Allocator;

/// Checks that all results of the checked scan fit 32 bits, so that they are those of the scan that wraps: `Overflow` at the
/// first that does not.
pub(crate) fn check_scan(a: &[i32]) -> Result<(), Fault>
    requires in_limit { length a.now ≤ most_places }
    ensures { MatchResult result (λ _. checked_scan_of a.now ≡ Ok (scan_of sum_of (pos 0) a.now))
        (λ f. checked_scan_of a.now ≡ Err f) }
{
    let fitting = fitting_of_scan(0, a);
    if fitting < a.len() {
        return Err(Fault::at(FaultNo::Overflow, fitting as u32));
    }
    Ok(())
}

/// The same for the checked scans of segments: `LengthMismatch`, without a place, if the segments' total is not the number of
/// elements, else `Overflow` at the first result that does not fit, at its place in the vector.
pub(crate) fn check_seg_scan(a: &[i32], d: &SegLengths) -> Result<(), Fault>
    ensures { MatchResult result (λ _. checked_seg_scan_of a.now d.now ≡ seg_scan_of sum_of (pos 0) a.now d.now)
        (λ f. checked_seg_scan_of a.now d.now ≡ Err f) }
{
    d.check_total(a)?;
    let fitting = fitting_of_scans(d.lengths(), a);
    if fitting < a.len() {
        return Err(Fault::at(FaultNo::Overflow, fitting as u32));
    }
    Ok(())
}

/// At each place the sum of the integers before it, which never wraps: `Overflow` at the first that does not fit 32 bits.
///
/// The result is as long as the vector, which has at most 2,147,483,647 elements. Source: Blelloch's prescan.
pub fn checked_scan_vec<A: Allocator>(alloc: A, a: &[i32]) -> Result<Vec<i32, A>, Refused>
    requires in_limit { length a.now ≤ most_places }
    ensures values { Gives (λ sums. sums.items) result (checked_scan_of a.now) }
    ensures as_long { IfOk result (λ sums. vec_len sums ≡ length a.now) }
{
    check_scan(a)?;
    know_numbers(a);
    let sums = scan_vec::<Add, i32, Itself, A>(alloc, 0, a)?;
    Ok(sums)
}

/// Writes to each place of a room the sum of the integers before it, which never wraps: `Overflow` at the first sum that does not
/// fit 32 bits; else `LengthMismatch`, without a place, if the room is not as long as the vector.
///
/// The vector has at most 2,147,483,647 elements. Source: Blelloch's prescan.
pub fn checked_scan_over(a: &[i32], out: &mut [i32]) -> Result<(), Fault>
    requires in_limit { length a.now ≤ most_places }
    ensures { Overwrites (in_room (length out.old) (checked_scan_of a.now)) result out.old out.new }
{
    check_scan(a)?;
    know_numbers(a);
    scan_over::<Add>(0, a, out)
}

/// The checked scan of each segment: `Overflow` at the first sum that does not fit 32 bits, at its place in the vector.
///
/// The result is as long as the vector. `LengthMismatch`, without a place, if the segments' total is not the number of elements.
/// Source: Blelloch's segmented scans.
pub fn checked_seg_scan_vec<A: Allocator, B: Allocator>(
    alloc: B,
    a: &[i32],
    d: &SegDes<A>,
) -> Result<Vec<i32, B>, Refused>
    ensures values { Gives (λ sums. sums.items) result (checked_seg_scan_of a.now d.now) }
    ensures as_long { IfOk result (λ sums. vec_len sums ≡ length a.now) }
{
    check_seg_scan(a, &d.as_lengths())?;
    know_numbers(a);
    seg_scan_vec::<Add, A, B>(alloc, a, d)
}

/// Writes the checked scan of each segment into a room: `Overflow` at the first sum that does not fit 32 bits, at its place in
/// the vector.
///
/// `LengthMismatch`, without a place, if the segments' total is not the number of elements, which is checked first, or if the
/// room is not as long as the vector, which is checked last. Source: Blelloch's segmented scans.
pub fn checked_seg_scan_over(a: &[i32], d: &SegLengths, out: &mut [i32]) -> Result<(), Fault>
    ensures { Overwrites (in_room (length out.old) (checked_seg_scan_of a.now d.now)) result out.old out.new }
{
    check_seg_scan(a, d)?;
    know_numbers(a);
    seg_scan_over::<Add>(a, d, out)
}

/// The sum of at most 2,147,483,647 integers, if it fits 32 bits.
fn fitting_total(xs: &[i32]) -> Option<i32>
    requires in_limit { length xs.now ≤ most_places }
    ensures { result ≡ fitting (total_of xs.now) }
{
    fitting(&total(xs))
}

/// The sum of the integers, which never wraps: `Overflow` at 0 if it does not fit 32 bits. It takes no memory.
///
/// The vector has at most 2,147,483,647 elements. Source: CVL's reduces.
pub fn checked_sum(a: &[i32]) -> Result<i32, Fault>
    requires in_limit { length a.now ≤ most_places }
    ensures { result ≡ checked_reduce_of a.now }
{
    match fitting_total(a) {
        Some(sum) => Ok(sum),
        None => Err(Fault::at(FaultNo::Overflow, 0)),
    }
}

/// The checked sum of each segment: `Overflow` at the first segment whose sum does not fit 32 bits.
///
/// The result has one element for each segment. `LengthMismatch`, without a place, if the segments' total is not the number of
/// elements. Source: CVL's segmented reduces.
pub fn checked_seg_reduce_vec<A: Allocator>(
    alloc: A,
    a: &[i32],
    d: &SegLengths,
) -> Result<Vec<i32, A>, Refused>
    ensures values { Gives (λ sums. sums.items) result (checked_seg_reduce_of a.now d.now) }
    ensures one_each { IfOk result (λ sums. vec_len sums ≡ length d.now) }
{
    d.check_total(a)?;
    let mut sums = Vec::with_capacity(alloc, d.count())?;
    let mut rest = a;
    for s in 0..d.count() {
        let (segment, others) = rest.split_at(d.length(s));
        match fitting_total(segment) {
            Some(sum) => sums.push_reserved(sum),
            None => return Err(Refused::Fault(Fault::at(FaultNo::Overflow, s as u32))),
        }
        rest = others;
    }
    Ok(sums)
}
