//! Sums of integers, as long as the sum before each of them fits 32 bits: one by one, or a block at a time.

ghost use Rattle.std.specs.Prelude.{◌≡◌, ◌+ℤ◌, ◌*ℤ◌, ◌≤◌, true, IfSome, IsTrue, Ok, length, pos};
ghost use Rattle.cvl_base.specs.Folds.{fold_of};
ghost use Rattle.cvl_base.specs.Integers.{greater_of, lesser_of, sum_of};
ghost use Rattle.cvl_base.specs.ItemWords.{is_number};
ghost use Rattle.scan_walks.specs.Fronts.{IsWalked, most_of_block};

use crate::numbers::fitting;
use crate::whole_sums::plus;
use operators::Binary;
use operators::monoids::{Add, Max, Min};

/// The most elements of a block.
pub(crate) const BLOCK: usize = 512;

/// The bounds of neighbouring elements, and their sum.
#[derive(Drop)]
pub(crate) struct Bounds {
    /// The least of them and 0.
    least: i32,
    /// The greatest of them and 0.
    greatest: i32,
    /// Their sum, wrapped to 32 bits.
    sum: i32,
}

/// The bounds of a block. `before` stands before it.
// the loop has no early exit, so that the compiler takes several elements at a time
pub(crate) fn bounds_of(before: &i32, block: &[i32]) -> Bounds
    ensures least { result.least ≡ fold_of lesser_of (pos 0) block.now }
    ensures greatest { result.greatest ≡ fold_of greater_of (pos 0) block.now }
    ensures sum { result.sum ≡ fold_of sum_of before.now block.now }
{
    let (mut least, mut greatest, mut sum) = (0, 0, *before);
    for x in block {
        least = Min::apply(least, *x);
        greatest = Max::apply(greatest, *x);
        sum = Add::apply(sum, *x);
    }
    Bounds {
        least,
        greatest,
        sum,
    }
}

/// Where this many steps lead from a number.
fn reach(from: i32, steps: i32, step: i32) -> i64
    ensures { result ≡ from +ℤ (steps *ℤ step) }
{
    i64::from(from) + i64::from(steps) * i64::from(step)
}

impl Bounds {
    /// Whether this many steps from a number, each of them the least or each of them the greatest element, lead to one of 32
    /// bits.
    pub(crate) fn leads_within(&self, from: i32, steps: i32) -> bool
        ensures { IsTrue result → (is_number (from +ℤ (steps *ℤ self.now.least)) ≡ true)
            × (is_number (from +ℤ (steps *ℤ self.now.greatest)) ≡ true) }
    {
        fitting(&reach(from, steps, self.least)).is_some()
            && fitting(&reach(from, steps, self.greatest)).is_some()
    }
}

/// The sum of a block, if its least and its greatest element show that it and the sum before each element fit 32 bits. `before`
/// stands before the block.
fn sum_within(before: &i32, block: &[i32]) -> Option<i32>
    requires { length block.now ≤ most_of_block }
    ensures { IfSome result (λ sum. IsWalked before.now block.now (Ok sum)) }
{
    let bounds = bounds_of(before, block);
    if bounds.leads_within(*before, BLOCK as i32) {
        return Some(bounds.sum);
    }
    None
}

/// The sum of the integers, or the place of the first one before which the sum does not fit 32 bits. `before` stands before the
/// integers.
// inlined, since a call takes longer than a short segment
#[inline(always)]
pub(crate) fn sum_one_by_one(before: i64, xs: &[i32]) -> Result<i64, usize>
    ensures { IsWalked before xs.now result }
{
    let mut so_far = before;
    for (place, x) in xs.iter().enumerate() {
        match fitting(&so_far) {
            Some(sum) => so_far = plus(&sum, x),
            None => return Err(place),
        }
    }
    Ok(so_far)
}

/// The same for a block, most often from its bounds alone.
pub(crate) fn sum_of_block(before: i64, block: &[i32]) -> Result<i64, usize>
    requires { length block.now ≤ most_of_block }
    ensures { IsWalked before block.now result }
{
    if let Some(start) = fitting(&before) {
        if let Some(sum) = sum_within(&start, block) {
            return Ok(i64::from(sum));
        }
    }
    sum_one_by_one(before, block)
}
