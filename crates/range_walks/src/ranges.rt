//! Walks over a range of the places of a segmented vector.
//!
//! Segments may start anywhere in it, some of them empty, and it may begin or end inside a segment. Each walk goes from segment
//! to segment, with a plain loop over the elements of each.

ghost use Rattle.std.specs.Prelude.{◌≡◌, false, ◌+◌, ◌-◌, ◌<◌, ◌≤◌, IsTrue, length, map, slice_range, unsigned_abs, sum};
ghost use Rattle.std.specs.List.{AllPass};
ghost use Rattle.cvl_base.specs.Descriptors.{AreLengthsWithin};
ghost use Rattle.cvl_base.specs.Limits.{most_places};
ghost use Rattle.cvl_base.specs.Folds.{fold_of};
ghost use Rattle.cvl_base.specs.SegmentMonoid.{seg_join};
ghost use Rattle.range_walks.specs.Ranges.{IsOpenAt, reduces_of, range_between, range_scan_of, scans_of};
ghost use Rattle.fresh.specs.Places.{with_items};

use crate::plain::{scan_into, sum_from};
use crate::range_parts::parts_of_range;
use crate::readings::Reading;
use crate::segment_scans::scan_of_segment;
use crate::segment_sums::sum_of_segment;
use crate::short_reduces::reduces_of_groups;
use crate::short_scans::scans_of_groups;
use crate::short_segments::are_short_and_uneven;
use cvl_base::Monoid;
use cvl_base::monoid::know_laws;
use fresh::Run;
use segdes::SegDes;
use std::alloc::Allocator;

/// Writes the scans of the segments with these lengths, in order, of the items read from the elements: at each element's place
/// the join of those before it in its segment, and the unit where the segment starts.
///
/// The lengths are counted in elements. The segments must have all of the elements, and the end of the elements may cut the last
/// one short. The run must have room for one item for each element. All items read must be items of the monoid. Source:
/// Blelloch's segmented scans.
// inlined for the loop that it calls
#[inline(always)]
pub fn scans_into<M: Monoid, X: Copy, E: Reading<X, M::Item>>(
    run: Run<M::Item>,
    lengths: &[i32],
    xs: &[X],
) -> Run<M::Item>
    requires lengths { AreLengthsWithin most_places lengths.now }
    requires covered { length xs.now ≤ sum (map unsigned_abs lengths.now) }
    requires room { length xs.now ≤ run.room }
    requires items { AllPass (λ x. M.is_item (E.item x)) xs.now }
    ensures { result ≡ with_items run (scans_of M.join M.unit (map unsigned_abs lengths.now) (map E.item xs.now)) }
{
    if are_short_and_uneven(lengths, xs.len()) {
        return scans_of_groups::<M, X, E>(run, lengths, xs);
    }
    scans_in_turn::<M, X, E>(run, lengths, xs)
}

/// The same as [`scans_into`], by a loop for each segment.
#[inline(always)]
pub(crate) fn scans_in_turn<M: Monoid, X: Copy, E: Reading<X, M::Item>>(
    run: Run<M::Item>,
    lengths: &[i32],
    xs: &[X],
) -> Run<M::Item>
    requires lengths { AreLengthsWithin most_places lengths.now }
    requires covered { length xs.now ≤ sum (map unsigned_abs lengths.now) }
    requires room { length xs.now ≤ run.room }
    requires items { AllPass (λ x. M.is_item (E.item x)) xs.now }
    ensures { result ≡ with_items run (scans_of M.join M.unit (map unsigned_abs lengths.now) (map E.item xs.now)) }
{
    know_laws::<M>();
    let mut run = run;
    let mut rest = xs;
    for length in lengths {
        let (segment, others) = rest.split_at((*length as usize).min(rest.len()));
        run = scan_of_segment::<M, X, E>(run, segment);
        rest = others;
    }
    run
}

/// Writes the reduces of the segments with these lengths, of the items read from the elements: for each segment the join of its
/// items, from left to right, and the unit if it is empty.
///
/// The lengths are counted in elements. The elements must begin with those of the segments; what follows is not read. The run
/// must have room for one item for each segment. All elements must be read as items of the monoid. Source: CVL's segmented
/// reduces.
pub fn reduces_into<M: Monoid, X: Copy, E: Reading<X, M::Item>>(
    run: Run<M::Item>,
    lengths: &[i32],
    xs: &[X],
) -> Run<M::Item>
    requires lengths { AreLengthsWithin most_places lengths.now }
    requires covered { sum (map unsigned_abs lengths.now) ≤ length xs.now }
    requires room { length lengths.now ≤ run.room }
    requires items { AllPass (λ x. M.is_item (E.item x)) xs.now }
    ensures { result ≡ with_items run (reduces_of M.join M.unit (map unsigned_abs lengths.now) (map E.item xs.now)) }
{
    if are_short_and_uneven(lengths, xs.len()) {
        return reduces_of_groups::<M, X, E>(run, lengths, xs);
    }
    reduces_in_turn::<M, X, E>(run, lengths, xs)
}

/// The same as [`reduces_into`], by a loop for each segment.
pub(crate) fn reduces_in_turn<M: Monoid, X: Copy, E: Reading<X, M::Item>>(
    run: Run<M::Item>,
    lengths: &[i32],
    xs: &[X],
) -> Run<M::Item>
    requires lengths { AreLengthsWithin most_places lengths.now }
    requires covered { sum (map unsigned_abs lengths.now) ≤ length xs.now }
    requires room { length lengths.now ≤ run.room }
    requires items { AllPass (λ x. M.is_item (E.item x)) xs.now }
    ensures { result ≡ with_items run (reduces_of M.join M.unit (map unsigned_abs lengths.now) (map E.item xs.now)) }
{
    know_laws::<M>();
    let (mut run, mut rest) = (run, xs);
    for length in lengths {
        let (segment, others) = rest.split_at(*length as usize);
        run.push(sum_of_segment::<M, X, E>(segment));
        rest = others;
    }
    run
}

/// Writes the reduces of the segments from number `first` to the one before number `next`, of the items read from the elements.
/// The run must have room for one element for each of the segments.
///
/// The first of these segments holds place `from`, or ends or starts there, and `before` is the join of its elements before that
/// place. It and all items read must be items of the monoid. No element before place `from` is read. Source: Blelloch's segmented
/// scans.
pub fn seg_reduces_into<M: Monoid, X: Copy, E: Reading<X, M::Item>, A: Allocator>(
    mut run: Run<M::Item>,
    a: &[X],
    d: &SegDes<A>,
    first: usize,
    next: usize,
    from: usize,
    before: M::Item,
) -> Run<M::Item>
    requires total { sum d.now ≡ length a.now }
    requires in_order { first ≤ next }
    requires within { next ≤ length d.now }
    requires room { next - first ≤ run.room }
    requires begun { first < next → IsOpenAt M.join M.unit d.now (map E.item a.now) first from before }
    requires before { IsTrue (M.is_item before) }
    requires items { AllPass (λ x. M.is_item (E.item x)) a.now }
    ensures { result ≡ with_items run (slice_range (reduces_of M.join M.unit d.now (map E.item a.now)) first next) }
{
    if first == next {
        return run;
    }
    let end = d.start(first) + d.length(first);
    let (_, rest) = a.split_at(from);
    let (front, others) = rest.split_at(end - from);
    run.push(sum_from::<M, X, E>(before, front));
    reduces_into::<M, X, E>(run, &d.lengths()[first + 1..next], others)
}

/// The sum of the range from place `from` to the one before place `to`, of the items read from the elements: whether a segment
/// starts in it, and the join of its elements since the last start. If none starts, that is `before` joined with all of them.
///
/// `before` is the join of the first segment's elements before the range. It and all items read must be items of the monoid. The
/// sum is the range's fold under [`Seg`](cvl_base::Seg), with which the sums of consecutive ranges can be joined. It reads no
/// element before the last start, and takes no memory. Source: Blelloch's segmented scans.
pub fn sum_of_range<M: Monoid, X: Copy, E: Reading<X, M::Item>, A: Allocator>(
    a: &[X],
    d: &SegDes<A>,
    from: usize,
    to: usize,
    before: M::Item,
) -> (bool, M::Item)
    requires total { sum d.now ≡ length a.now }
    requires in_order { from ≤ to }
    requires within { to ≤ length a.now }
    requires before { IsTrue (M.is_item before) }
    requires items { AllPass (λ x. M.is_item (E.item x)) a.now }
    ensures { result ≡ fold_of (seg_join M.join) (false, before) (range_between d.now (map E.item a.now) from to) }
{
    know_laws::<M>();
    let first = d.starts_before(from);
    let next = d.starts_before(to);
    if first < next {
        let start = d.start(next - 1);
        return (true, sum_from::<M, X, E>(M::unit(), &a[start..to]));
    }
    (false, sum_from::<M, X, E>(before, &a[from..to]))
}

/// Writes the scan of the range from place `from` to the one before place `to`, of the items read from the elements: at each
/// place the join of the elements before it in its segment. The run must have room for as many.
///
/// `before` is the join of the first segment's elements before the range. It and all items read must be items of the monoid.
/// Source: Blelloch's segmented scans.
// inlined, so that what is known of the run stays in registers from segment to segment
#[inline(always)]
pub fn scan_range_into<M: Monoid, X: Copy, E: Reading<X, M::Item>, A: Allocator>(
    run: Run<M::Item>,
    a: &[X],
    d: &SegDes<A>,
    from: usize,
    to: usize,
    before: M::Item,
) -> Run<M::Item>
    requires total { sum d.now ≡ length a.now }
    requires in_order { from ≤ to }
    requires within { to ≤ length a.now }
    requires room { to - from ≤ run.room }
    requires before { IsTrue (M.is_item before) }
    requires items { AllPass (λ x. M.is_item (E.item x)) a.now }
    ensures { result ≡ with_items run (range_scan_of M.join M.unit before (range_between d.now (map E.item a.now) from to)) }
{
    know_laws::<M>();
    let (front, lengths, others) = parts_of_range(a, d, from, to);
    let run = scan_into::<M, X, E>(run, before, front);
    scans_into::<M, X, E>(run, lengths, others)
}
