//! Scans in place, on the calling thread: each overwrites the vector that it scans. They take no memory.

ghost use Rattle.std.specs.Prelude.{◌≡◌, ◌≤◌, IsTrue, length, map, sum, unsigned_abs};
ghost use Rattle.std.specs.List.{AllPass};
ghost use Rattle.cvl_base.specs.CheckedSums.{checked_scan_of, checked_seg_scan_of};
ghost use Rattle.cvl_base.specs.Descriptors.{AreLengthsWithin};
ghost use Rattle.cvl_base.specs.Folds.{scan_of};
ghost use Rattle.cvl_base.specs.Limits.{most_places};
ghost use Rattle.cvl_base.specs.Rooms.{Overwrites};
ghost use Rattle.cvl_base.specs.SegmentedCalls.{seg_scan_of};
ghost use Rattle.range_walks.specs.Ranges.{scans_of};

use crate::checked::{check_scan, check_seg_scan};
use crate::numbers::know_numbers;
use crate::short_in_place::scans_in_groups;
use cvl_base::monoid::know_laws;
use cvl_base::monoids::Add;
use cvl_base::{Fault, Monoid};
use range_walks::are_short_and_uneven;
use segdes::SegLengths;

/// Writes the exclusive scan over the vector: each element becomes `before`, joined from left to right with the elements that
/// stood before it.
///
/// `before` and the elements must be items of the monoid. Source: Blelloch's prescan.
// inlined, since a call takes longer than a short segment
#[inline(always)]
pub fn scan_in<M: Monoid>(before: M::Item, a: &mut [M::Item])
    requires before { IsTrue (M.is_item before) }
    requires items { AllPass M.is_item a.old }
    ensures { a.new ≡ scan_of M.join before a.old }
{
    know_laws::<M>();
    let mut so_far = before;
    for place in 0..a.len() {
        let item = a[place];
        a[place] = so_far;
        so_far = M::join(so_far, item);
    }
}

/// Writes the exclusive scans of the segments with these lengths over the vector, by a loop for each segment.
pub(crate) fn scans_in_turn<M: Monoid>(a: &mut [M::Item], lengths: &[i32])
    requires lengths { AreLengthsWithin most_places lengths.now }
    requires total { sum (map unsigned_abs lengths.now) ≡ length a.old }
    requires items { AllPass M.is_item a.old }
    ensures { a.new ≡ scans_of M.join M.unit (map unsigned_abs lengths.now) a.old }
{
    know_laws::<M>();
    let mut start = 0;
    for length in lengths {
        let end = start + *length as usize;
        scan_in::<M>(M::unit(), &mut a[start..end]);
        start = end;
    }
}

/// The same, many segments at once if they are short and uneven.
fn scans_in<M: Monoid>(a: &mut [M::Item], lengths: &[i32])
    requires lengths { AreLengthsWithin most_places lengths.now }
    requires total { sum (map unsigned_abs lengths.now) ≡ length a.old }
    requires items { AllPass M.is_item a.old }
    ensures { a.new ≡ scans_of M.join M.unit (map unsigned_abs lengths.now) a.old }
{
    if are_short_and_uneven(lengths, a.len()) {
        return scans_in_groups::<M>(a, lengths);
    }
    scans_in_turn::<M>(a, lengths)
}

/// Writes the exclusive scan of each segment over the vector. `LengthMismatch`, without a place, if the segments' total is not
/// the number of elements, which are then as before.
///
/// The elements must be items of the monoid. Source: Blelloch's segmented scans.
pub fn seg_scan_in<M: Monoid>(a: &mut [M::Item], d: &SegLengths) -> Result<(), Fault>
    requires items { AllPass M.is_item a.old }
    ensures { Overwrites (seg_scan_of M.join M.unit a.old d.now) result a.old a.new }
{
    d.check_total(a)?;
    scans_in::<M>(a, d.lengths());
    Ok(())
}

/// Writes over each integer the sum of those before it, which never wraps: `Overflow` at the first sum that does not fit 32 bits,
/// and the vector is then as before.
///
/// The vector has at most 2,147,483,647 elements. Source: Blelloch's prescan.
pub fn checked_scan_in(a: &mut [i32]) -> Result<(), Fault>
    requires in_limit { length a.old ≤ most_places }
    ensures { Overwrites (checked_scan_of a.old) result a.old a.new }
{
    check_scan(a)?;
    know_numbers(a);
    scan_in::<Add>(0, a);
    Ok(())
}

/// Writes the checked scan of each segment over the vector: `LengthMismatch`, without a place, if the segments' total is not the
/// number of elements, else `Overflow` at the first sum that does not fit 32 bits, at its place in the vector. Then the vector is
/// as before. Source: Blelloch's segmented scans.
pub fn checked_seg_scan_in(a: &mut [i32], d: &SegLengths) -> Result<(), Fault>
    ensures { Overwrites (checked_seg_scan_of a.old d.now) result a.old a.new }
{
    check_seg_scan(a, d)?;
    know_numbers(a);
    seg_scan_in::<Add>(a, d)
}
