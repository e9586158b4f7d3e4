//! Scans of short segments, of which one loop walks many: it writes for each element the sum of its segment so far, and joins
//! the element to it.

ghost use Rattle.std.specs.Prelude.{◌≡◌, ◌≤◌, length, map, sum, unsigned_abs};
ghost use Rattle.std.specs.List.{AllPass};
ghost use Rattle.cvl_base.specs.Descriptors.{AreLengthsWithin};
ghost use Rattle.cvl_base.specs.Limits.{most_places};
ghost use Rattle.fresh.specs.Places.{with_items};
ghost use Rattle.range_walks.specs.Ends.{AreEnds};
ghost use Rattle.range_walks.specs.Ranges.{scans_of};

use crate::ends::count_ends;
use crate::ranges::scans_in_turn;
use crate::readings::Reading;
use crate::short_segments::{GROUP, GROUP_ELEMENTS, LARGEST, total_of};
use cvl_base::Monoid;
use cvl_base::monoid::know_laws;
use fresh::Run;
use std::mem::size_of_val;

/// Writes the scans of the segments with these lengths, whose ends are counted: for each element the sum of the elements before
/// it in the segment that holds it.
fn scans_by_ends<M: Monoid, X: Copy, E: Reading<X, M::Item>>(
    run: Run<M::Item>,
    lengths: &[i32],
    ends: &[u8],
    xs: &[X],
) -> Run<M::Item>
    requires lengths { AreLengthsWithin most_places lengths.now }
    requires few { length lengths.now ≤ 128 }
    requires covered { length xs.now ≤ sum (map unsigned_abs lengths.now) }
    requires ends { AreEnds (map unsigned_abs lengths.now) ends.now }
    requires places { length xs.now ≤ length ends.now }
    requires room { length xs.now ≤ run.room }
    requires items { AllPass (λ x. M.is_item (E.item x)) xs.now }
    ensures { result ≡ with_items run (scans_of M.join M.unit (map unsigned_abs lengths.now) (map E.item xs.now)) }
{
    know_laws::<M>();
    let unit = M::unit();
    if size_of_val(&unit) > LARGEST {
        return scans_in_turn::<M, X, E>(run, lengths, xs);
    }
    let mut run = run;
    let mut sums = [unit; GROUP];
    let mut segment = 0;
    for place in 0..xs.len() {
        segment += ends[place] as usize;
        let sum = &mut sums[segment];
        let before = *sum;
        run.push(before);
        *sum = M::join(before, E::item(xs[place]));
    }
    run
}

/// The same as [`scans_by_ends`], by one sum that begins anew where segments end, if a processor joins two items in one step.
/// Each join waits for the one before, also where a segment ends, but nothing is written or read for the sums.
fn scans_by_one_sum<M: Monoid, X: Copy, E: Reading<X, M::Item>>(
    run: Run<M::Item>,
    lengths: &[i32],
    ends: &[u8],
    xs: &[X],
) -> Run<M::Item>
    requires lengths { AreLengthsWithin most_places lengths.now }
    requires few { length lengths.now ≤ 128 }
    requires covered { length xs.now ≤ sum (map unsigned_abs lengths.now) }
    requires ends { AreEnds (map unsigned_abs lengths.now) ends.now }
    requires places { length xs.now ≤ length ends.now }
    requires room { length xs.now ≤ run.room }
    requires items { AllPass (λ x. M.is_item (E.item x)) xs.now }
    ensures { result ≡ with_items run (scans_of M.join M.unit (map unsigned_abs lengths.now) (map E.item xs.now)) }
{
    know_laws::<M>();
    if !M::joins_in_one_step() {
        return scans_by_ends::<M, X, E>(run, lengths, ends, xs);
    }
    let unit = M::unit();
    let (mut run, mut so_far) = (run, unit);
    for place in 0..xs.len() {
        let sum = if ends[place] == 0 { so_far } else { unit };
        run.push(sum);
        so_far = M::join(sum, E::item(xs[place]));
    }
    run
}

/// Writes the scans of at most [`GROUP`] segments with these lengths, which have so many elements together. The end of the
/// elements may cut the last ones short.
fn scans_of_group<M: Monoid, X: Copy, E: Reading<X, M::Item>>(
    run: Run<M::Item>,
    lengths: &[i32],
    total: usize,
    xs: &[X],
) -> Run<M::Item>
    requires lengths { AreLengthsWithin most_places lengths.now }
    requires few { length lengths.now ≤ 128 }
    requires total { total ≡ sum (map unsigned_abs lengths.now) }
    requires covered { length xs.now ≤ total }
    requires room { length xs.now ≤ run.room }
    requires items { AllPass (λ x. M.is_item (E.item x)) xs.now }
    ensures { result ≡ with_items run (scans_of M.join M.unit (map unsigned_abs lengths.now) (map E.item xs.now)) }
{
    if total > GROUP_ELEMENTS {
        return scans_in_turn::<M, X, E>(run, lengths, xs);
    }
    let mut ends = [0; GROUP_ELEMENTS + 1];
    count_ends(lengths, &mut ends);
    scans_by_one_sum::<M, X, E>(run, lengths, &ends, xs)
}

/// The same as [`scans_into`](crate::scans_into), many short segments at once.
pub(crate) fn scans_of_groups<M: Monoid, X: Copy, E: Reading<X, M::Item>>(
    run: Run<M::Item>,
    lengths: &[i32],
    xs: &[X],
) -> Run<M::Item>
    requires lengths { AreLengthsWithin most_places lengths.now }
    requires covered { length xs.now ≤ sum (map unsigned_abs lengths.now) }
    requires room { length xs.now ≤ run.room }
    requires items { AllPass (λ x. M.is_item (E.item x)) xs.now }
    ensures { result ≡ with_items run (scans_of M.join M.unit (map unsigned_abs lengths.now) (map E.item xs.now)) }
{
    let (mut run, mut first, mut rest) = (run, 0, xs);
    while first < lengths.len() {
        let next = (first + GROUP).min(lengths.len());
        let group = &lengths[first..next];
        let total = total_of(group);
        let (elements, others) = rest.split_at(total.min(rest.len()));
        run = scans_of_group::<M, X, E>(run, group, total, elements);
        first = next;
        rest = others;
    }
    run
}
