//! The parts of a range of the places of a segmented vector: what continues the segment before it, and the segments that start in
//! it.

ghost use Rattle.std.specs.Prelude.{◌≡◌, ◌++◌, ◌≤◌, drop, length, map, slice_range, sum, take, unsigned_abs};
ghost use Rattle.cvl_base.specs.Descriptors.{AreLengthsWithin};
ghost use Rattle.cvl_base.specs.Limits.{most_places};
ghost use Rattle.range_walks.specs.Ranges.{continued, range_between, with_starts};

use segdes::SegDes;
use std::alloc::Allocator;

/// The range from place `from` to the one before place `to`: its elements before the first segment that starts in it, the lengths
/// of the segments that start in it, and their elements. The end of the range may cut the last segment short.
///
/// The lengths of the descriptor must add up to the vector's. Places are counted from 0, and lengths in elements. It takes no
/// memory. Source: Blelloch's segmented scans.
#[inline(always)]
pub fn parts_of_range<'a, X, A: Allocator>(
    a: &'a [X],
    d: &'a SegDes<A>,
    from: usize,
    to: usize,
) -> (&'a [X], &'a [i32], &'a [X])
    requires total { sum d.now ≡ length a.now }
    requires in_order { from ≤ to }
    requires within { to ≤ length a.now }
    ensures front { result.0.now ≡ take (length result.0.now) (slice_range a.now from to) }
    ensures others { result.2.now ≡ drop (length result.0.now) (slice_range a.now from to) }
    ensures lengths { AreLengthsWithin most_places result.1.now }
    ensures covered { length result.2.now ≤ sum (map unsigned_abs result.1.now) }
    ensures starts { range_between d.now a.now from to
        ≡ continued result.0.now ++ with_starts (map unsigned_abs result.1.now) result.2.now }
{
    let first = d.starts_before(from);
    let next = d.starts_before(to);
    let start = d.start_or_total(first);
    let (front, others) = a[from..to].split_at(start.min(to) - from);
    (front, &d.lengths()[first..next], others)
}
