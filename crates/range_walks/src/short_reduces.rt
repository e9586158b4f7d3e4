//! Reduces of short segments, of which one loop walks many: it joins each element to the sum of its segment.

ghost use Rattle.std.specs.Prelude.{◌≡◌, ◌≤◌, length, map, sum, unsigned_abs};
ghost use Rattle.std.specs.List.{AllPass};
ghost use Rattle.cvl_base.specs.Descriptors.{AreLengthsWithin};
ghost use Rattle.cvl_base.specs.Limits.{most_places};
ghost use Rattle.fresh.specs.Places.{with_items};
ghost use Rattle.range_walks.specs.Ends.{AreEnds};
ghost use Rattle.range_walks.specs.Ranges.{reduces_of};

use crate::ends::count_ends;
use crate::ranges::reduces_in_turn;
use crate::readings::Reading;
use crate::short_segments::{GROUP, GROUP_ELEMENTS, LARGEST, total_of};
use cvl_base::Monoid;
use cvl_base::monoid::know_laws;
use fresh::Run;
use std::mem::size_of_val;

/// Writes the reduces of the segments with these lengths, whose ends are counted: each element is joined to the sum of the
/// segment that holds it.
fn reduces_by_ends<M: Monoid, X: Copy, E: Reading<X, M::Item>>(
    run: Run<M::Item>,
    lengths: &[i32],
    ends: &[u8],
    xs: &[X],
) -> Run<M::Item>
    requires lengths { AreLengthsWithin most_places lengths.now }
    requires few { length lengths.now ≤ 128 }
    requires covered { sum (map unsigned_abs lengths.now) ≡ length xs.now }
    requires ends { AreEnds (map unsigned_abs lengths.now) ends.now }
    requires places { length xs.now ≤ length ends.now }
    requires room { length lengths.now ≤ run.room }
    requires items { AllPass (λ x. M.is_item (E.item x)) xs.now }
    ensures { result ≡ with_items run (reduces_of M.join M.unit (map unsigned_abs lengths.now) (map E.item xs.now)) }
{
    know_laws::<M>();
    let unit = M::unit();
    if size_of_val(&unit) > LARGEST {
        return reduces_in_turn::<M, X, E>(run, lengths, xs);
    }
    let mut sums = [unit; GROUP];
    let mut segment = 0;
    for place in 0..xs.len() {
        segment += ends[place] as usize;
        let sum = &mut sums[segment];
        *sum = M::join(*sum, E::item(xs[place]));
    }
    // here, since a call would get the sums by a reference, which says nothing of their size
    let mut run = run;
    for number in 0..lengths.len() {
        run.push(sums[number]);
    }
    run
}

/// Writes the reduces of at most [`GROUP`] segments with these lengths, which have all of the elements.
fn reduces_of_group<M: Monoid, X: Copy, E: Reading<X, M::Item>>(
    run: Run<M::Item>,
    lengths: &[i32],
    xs: &[X],
) -> Run<M::Item>
    requires lengths { AreLengthsWithin most_places lengths.now }
    requires few { length lengths.now ≤ 128 }
    requires covered { sum (map unsigned_abs lengths.now) ≡ length xs.now }
    requires room { length lengths.now ≤ run.room }
    requires items { AllPass (λ x. M.is_item (E.item x)) xs.now }
    ensures { result ≡ with_items run (reduces_of M.join M.unit (map unsigned_abs lengths.now) (map E.item xs.now)) }
{
    if xs.len() > GROUP_ELEMENTS {
        return reduces_in_turn::<M, X, E>(run, lengths, xs);
    }
    let mut ends = [0; GROUP_ELEMENTS + 1];
    count_ends(lengths, &mut ends);
    reduces_by_ends::<M, X, E>(run, lengths, &ends, xs)
}

/// The same as [`reduces_into`](crate::reduces_into), many short segments at once.
pub(crate) fn reduces_of_groups<M: Monoid, X: Copy, E: Reading<X, M::Item>>(
    run: Run<M::Item>,
    lengths: &[i32],
    xs: &[X],
) -> Run<M::Item>
    requires lengths { AreLengthsWithin most_places lengths.now }
    requires covered { sum (map unsigned_abs lengths.now) ≤ length xs.now }
    requires room { length lengths.now ≤ run.room }
    requires items { AllPass (λ x. M.is_item (E.item x)) xs.now }
    ensures { result ≡ with_items run (reduces_of M.join M.unit (map unsigned_abs lengths.now) (map E.item xs.now)) }
{
    let (mut run, mut first, mut rest) = (run, 0, xs);
    while first < lengths.len() {
        let next = (first + GROUP).min(lengths.len());
        let group = &lengths[first..next];
        let (elements, others) = rest.split_at(total_of(group));
        run = reduces_of_group::<M, X, E>(run, group, elements);
        first = next;
        rest = others;
    }
    run
}
