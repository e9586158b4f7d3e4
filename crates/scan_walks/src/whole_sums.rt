//! Sums over whole numbers, which never wrap: the sum of as many integers as a vector has fits 63 bits.

ghost use Rattle.std.specs.Prelude.{◌≡◌, ◌+ℤ◌, ◌≤◌, length, pos, sum};
ghost use Rattle.cvl_base.specs.Exact.{total_of};
ghost use Rattle.cvl_base.specs.Folds.{fold_of};
ghost use Rattle.cvl_base.specs.Limits.{most_places};
ghost use Rattle.cvl_base.specs.SegmentMonoid.{seg_join, seg_unit};
ghost use Rattle.range_walks.specs.Ranges.{range_between};

use segdes::SegDes;
use std::alloc::Allocator;

/// The sum of two integers, which never wraps.
pub(crate) fn plus(a: &i32, b: &i32) -> i64
    ensures { result ≡ a.now +ℤ b.now }
{
    i64::from(*a) + i64::from(*b)
}

/// The sum of at most 2,147,483,647 integers. It fits 63 bits, so that it is exact.
pub fn total(xs: &[i32]) -> i64
    requires in_limit { length xs.now ≤ most_places }
    ensures { result ≡ total_of xs.now }
{
    let mut sum: i64 = 0;
    for x in xs {
        sum += i64::from(*x);
    }
    sum
}

/// The sum of the range from place `from` to the one before place `to`: whether a segment starts in it, and what its elements
/// since the last start add up to.
///
/// It reads no element before the last start, and takes no memory. Source: Blelloch's segmented scans.
pub fn total_of_range<A: Allocator>(a: &[i32], d: &SegDes<A>, from: usize, to: usize) -> (bool, i64)
    requires total { sum d.now ≡ length a.now }
    requires in_order { from ≤ to }
    requires within { to ≤ length a.now }
    requires in_limit { length a.now ≤ most_places }
    ensures { result ≡ fold_of (seg_join ◌+ℤ◌) (seg_unit (pos 0)) (range_between d.now a.now from to) }
{
    let first = d.starts_before(from);
    let next = d.starts_before(to);
    if first < next {
        let start = d.start(next - 1);
        return (true, total(&a[start..to]));
    }
    (false, total(&a[from..to]))
}
