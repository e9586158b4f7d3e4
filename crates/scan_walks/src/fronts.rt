//! How many results of a checked scan fit 32 bits, from the first one on.

ghost use Rattle.std.specs.Prelude.{◌≡◌, ◌+ℤ◌, ◌≤◌, length, pos, sum};
ghost use Rattle.cvl_base.specs.Folds.{scan_of};
ghost use Rattle.range_walks.specs.Ranges.{range_between, range_scan_of};
ghost use Rattle.scan_walks.specs.Fronts.{fitting_front};

use crate::blocks::{BLOCK, sum_of_block, sum_one_by_one};
use crate::segment_fronts::fitting_of_scans;
use range_walks::parts_of_range;
use segdes::SegDes;
use std::alloc::Allocator;

/// Fewer elements than this are tested one by one.
pub(crate) const SHORT: usize = 64;

/// How many of the sums before each of the integers fit 32 bits, from the first one on. `before` stands before the integers.
///
/// It takes no memory. Source: Blelloch's prescan, over whole numbers.
// inlined, since a call takes longer than a short segment
#[inline(always)]
pub fn fitting_of_scan(before: i64, xs: &[i32]) -> usize
    ensures front { result ≡ fitting_front (scan_of ◌+ℤ◌ before xs.now) }
    ensures within { result ≤ length xs.now }
{
    let (mut so_far, mut done, mut rest) = (before, 0, xs);
    while rest.len() >= SHORT {
        let (block, others) = rest.split_at(rest.len().min(BLOCK));
        match sum_of_block(so_far, block) {
            Ok(sum) => so_far = sum,
            Err(place) => return done + place,
        }
        done += block.len();
        rest = others;
    }
    match sum_one_by_one(so_far, rest) {
        Ok(_) => xs.len(),
        Err(place) => done + place,
    }
}

/// How many results of the checked scan of the range from place `from` to the one before place `to` fit 32 bits, from the first
/// one on. `before` is the sum of the first segment's elements before the range.
///
/// It takes no memory. Source: Blelloch's segmented scans, over whole numbers.
pub fn fitting_of_range<A: Allocator>(
    a: &[i32],
    d: &SegDes<A>,
    from: usize,
    to: usize,
    before: i64,
) -> usize
    requires total { sum d.now ≡ length a.now }
    requires in_order { from ≤ to }
    requires within { to ≤ length a.now }
    ensures { result ≡ fitting_front (range_scan_of ◌+ℤ◌ (pos 0) before (range_between d.now a.now from to)) }
{
    let (front, lengths, others) = parts_of_range(a, d, from, to);
    let fitting = fitting_of_scan(before, front);
    if fitting < front.len() {
        return fitting;
    }
    fitting + fitting_of_scans(lengths, others)
}
