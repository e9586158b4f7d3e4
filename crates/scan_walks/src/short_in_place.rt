//! Scans in place of short segments of uneven lengths, many by one loop, as `range_walks` writes them into fresh memory.

ghost use Rattle.std.specs.Prelude.{◌≡◌, ◌≤◌, length, map, sum, unsigned_abs};
ghost use Rattle.std.specs.List.{AllPass};
ghost use Rattle.cvl_base.specs.Descriptors.{AreLengthsWithin};
ghost use Rattle.cvl_base.specs.Limits.{most_places};
ghost use Rattle.range_walks.specs.Ends.{AreEnds};
ghost use Rattle.range_walks.specs.Ranges.{scans_of};

use crate::in_place::scans_in_turn;
use cvl_base::Monoid;
use cvl_base::monoid::know_laws;
use range_walks::ends::count_ends;
use range_walks::short_segments::{GROUP, GROUP_ELEMENTS, LARGEST, total_of};
use std::mem::size_of_val;

/// Writes the scans of the segments with these lengths, whose ends are counted, over the vector: for each element the sum of the
/// elements before it in the segment that holds it. A sum is kept for each segment.
fn scans_in_by_ends<M: Monoid>(a: &mut [M::Item], lengths: &[i32], ends: &[u8])
    requires lengths { AreLengthsWithin most_places lengths.now }
    requires few { length lengths.now ≤ 128 }
    requires total { sum (map unsigned_abs lengths.now) ≡ length a.old }
    requires ends { AreEnds (map unsigned_abs lengths.now) ends.now }
    requires places { length a.old ≤ length ends.now }
    requires items { AllPass M.is_item a.old }
    ensures { a.new ≡ scans_of M.join M.unit (map unsigned_abs lengths.now) a.old }
{
    know_laws::<M>();
    let unit = M::unit();
    if size_of_val(&unit) > LARGEST {
        return scans_in_turn::<M>(a, lengths);
    }
    let mut sums = [unit; GROUP];
    let mut segment = 0;
    for place in 0..a.len() {
        segment += ends[place] as usize;
        let item = a[place];
        let sum = &mut sums[segment];
        let before = *sum;
        a[place] = before;
        *sum = M::join(before, item);
    }
}

/// The same by one sum, which begins anew where segments end, if a processor joins two items in one step.
fn scans_in_by_one_sum<M: Monoid>(a: &mut [M::Item], lengths: &[i32], ends: &[u8])
    requires lengths { AreLengthsWithin most_places lengths.now }
    requires few { length lengths.now ≤ 128 }
    requires total { sum (map unsigned_abs lengths.now) ≡ length a.old }
    requires ends { AreEnds (map unsigned_abs lengths.now) ends.now }
    requires places { length a.old ≤ length ends.now }
    requires items { AllPass M.is_item a.old }
    ensures { a.new ≡ scans_of M.join M.unit (map unsigned_abs lengths.now) a.old }
{
    know_laws::<M>();
    if !M::joins_in_one_step() {
        return scans_in_by_ends::<M>(a, lengths, ends);
    }
    let unit = M::unit();
    let mut so_far = unit;
    for place in 0..a.len() {
        let item = a[place];
        let sum = if ends[place] == 0 { so_far } else { unit };
        a[place] = sum;
        so_far = M::join(sum, item);
    }
}

/// The same for at most [`GROUP`] segments, whose ends it counts if they have few elements.
fn scans_in_group<M: Monoid>(a: &mut [M::Item], lengths: &[i32])
    requires lengths { AreLengthsWithin most_places lengths.now }
    requires few { length lengths.now ≤ 128 }
    requires total { sum (map unsigned_abs lengths.now) ≡ length a.old }
    requires items { AllPass M.is_item a.old }
    ensures { a.new ≡ scans_of M.join M.unit (map unsigned_abs lengths.now) a.old }
{
    if a.len() > GROUP_ELEMENTS {
        return scans_in_turn::<M>(a, lengths);
    }
    let mut ends = [0; GROUP_ELEMENTS + 1];
    count_ends(lengths, &mut ends);
    scans_in_by_one_sum::<M>(a, lengths, &ends)
}

/// The same for any number of segments, group by group.
pub(crate) fn scans_in_groups<M: Monoid>(a: &mut [M::Item], lengths: &[i32])
    requires lengths { AreLengthsWithin most_places lengths.now }
    requires total { sum (map unsigned_abs lengths.now) ≡ length a.old }
    requires items { AllPass M.is_item a.old }
    ensures { a.new ≡ scans_of M.join M.unit (map unsigned_abs lengths.now) a.old }
{
    let (mut first, mut start) = (0, 0);
    while first < lengths.len() {
        let next = (first + GROUP).min(lengths.len());
        let group = &lengths[first..next];
        let end = start + total_of(group);
        scans_in_group::<M>(&mut a[start..end], group);
        first = next;
        start = end;
    }
}
