//! The sum over the entries of one row: an entry's value times the element of the vector at its column.

ghost use Rattle.std.specs.Prelude.{◌≡◌, ◌+◌, ◌≤◌, ◌+ℤ◌, ◌*ℤ◌, length, unsigned_abs};
ghost use Rattle.std.specs.List.{zip};
ghost use Rattle.cvl_base.specs.CheckedSums.{fitting};
ghost use Rattle.cvl_base.specs.Extracts.{element_at};
ghost use Rattle.cvl_base.specs.Integers.{wrap};
ghost use Rattle.cvl_base.specs.Limits.{most_places};
ghost use Rattle.sparse_products.specs.Rows.{row_value, wrapping};

use cvl_base::monoids::{Add, Mul};
use cvl_base::{Binary, place_among};

/// A rule that gives the sum of a row a value.
pub(crate) trait RowSum {
    ghost use Rattle.std.specs.Prelude.{ℤ, Option};

    ghost rule: { ℤ → Option ℤ };

    /// The value of the row of these entries. None if a column is no place of `x`, or the rule has none for the sum.
    fn value(columns: &[i32], values: &[i32], x: &[i32]) -> Option<i32>
        requires as_many { length values.now ≡ length columns.now }
        requires few { length columns.now ≤ most_places }
        ensures { result ≡ row_value rule x.now (zip columns.now values.now) };
}

/// Each sum is wrapped to 32 bits.
pub(crate) struct Wrapping;

/// Each sum must fit 32 bits.
pub(crate) struct Checked;

impl RowSum for Wrapping {
    ghost rule = { wrapping };

    #[inline]
    fn value(columns: &[i32], values: &[i32], x: &[i32]) -> Option<i32> {
        wrapped_sum(columns, values, x)
    }
}

impl RowSum for Checked {
    ghost rule = { fitting };

    #[inline]
    fn value(columns: &[i32], values: &[i32], x: &[i32]) -> Option<i32> {
        fitting_sum(columns, values, x)
    }
}

/// The element of `x` at a column, if the column is one of its places.
#[inline(always)]
pub(crate) fn element_of(x: &[i32], column: &i32) -> Option<i32>
    ensures { result ≡ element_at x.now column.now }
{
    let place = place_among(x.len(), column)?;
    Some(x[place])
}

/// The sum with one product more, wrapped to 32 bits.
#[inline(always)]
pub(crate) fn with_product(sum: &i32, value: &i32, element: &i32) -> i32
    ensures { result ≡ wrap (sum.now +ℤ wrap (value.now *ℤ element.now)) }
{
    Add::apply(*sum, Mul::apply(*value, *element))
}

/// The product of two integers, which never wraps.
#[inline(always)]
fn whole_product(value: &i32, element: &i32) -> i64
    ensures exact { result ≡ value.now *ℤ element.now }
    ensures small { unsigned_abs result ≤ 4611686018427387904 }
{
    i64::from(*value) * i64::from(*element)
}

/// The sum with one product more, which doesn't wrap if the sum is less than 2^93 away from 0.
#[inline(always)]
fn with_whole_product(sum: &i128, value: &i32, element: &i32) -> i128
    requires { unsigned_abs sum.now ≤ 9903520314283042199192993792 }
    ensures exact { result ≡ sum.now +ℤ (value.now *ℤ element.now) }
    ensures near { unsigned_abs result ≤ unsigned_abs sum.now + 4611686018427387904 }
{
    *sum + i128::from(whole_product(value, element))
}

/// The number, if it fits 32 bits.
#[inline(always)]
fn narrow(sum: &i128) -> Option<i32>
    ensures { result ≡ fitting sum.now }
{
    i32::try_from(*sum).ok()
}

/// The sum of a row, wrapped to 32 bits.
#[inline]
fn wrapped_sum(columns: &[i32], values: &[i32], x: &[i32]) -> Option<i32>
    requires as_many { length values.now ≡ length columns.now }
    ensures { result ≡ row_value wrapping x.now (zip columns.now values.now) }
{
    let mut sum = 0;
    for k in 0..columns.len() {
        match element_of(x, &columns[k]) {
            None => return None,
            Some(element) => sum = with_product(&sum, &values[k], &element),
        }
    }
    Some(sum)
}

/// The sum of a row, if it fits 32 bits. So many products add up to less than 2^93, so that no partial sum wraps.
#[inline]
fn fitting_sum(columns: &[i32], values: &[i32], x: &[i32]) -> Option<i32>
    requires as_many { length values.now ≡ length columns.now }
    requires few { length columns.now ≤ most_places }
    ensures { result ≡ row_value fitting x.now (zip columns.now values.now) }
{
    let mut sum: i128 = 0;
    for k in 0..columns.len() {
        match element_of(x, &columns[k]) {
            None => return None,
            Some(element) => sum = with_whole_product(&sum, &values[k], &element),
        }
    }
    narrow(&sum)
}
