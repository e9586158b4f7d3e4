//! Products of sparse matrices with vectors. The rows are given as lengths, or by offsets.

ghost use Rattle.std.specs.Prelude.{Ok};
ghost use Rattle.cvl_base.specs.Gives.{Gives};
ghost use Rattle.c_calls.specs.Calls.{by_row_offsets};
ghost use Rattle.c_calls.specs.Products.{checked_product_by_offsets_of, checked_product_of, product_by_offsets_of, product_of};

use crate::checks::{check_limit, segments};
use cvl_base::limits::MOST_PLACES;
use cvl_base::{Fault, FaultNo, Refused};
use sparse_products::{checked_rows_product, row_lengths, rows_product};
use std::alloc::Global;

/// The product. Its sums and products wrap to 32 bits.
pub fn product(
    alloc: Global,
    lengths: &[i32],
    columns: &[i32],
    values: &[i32],
    x: &[i32],
) -> Result<Vec<i32, Global>, Refused>
    ensures { Gives (λ v. v.items) result (product_of lengths.now columns.now values.now x.now) }
{
    let rows = segments(lengths)?;
    check_limit(columns)?;
    rows_product(alloc, &rows, columns, values, x)
}

/// The same in whole numbers.
pub fn checked_product(
    alloc: Global,
    lengths: &[i32],
    columns: &[i32],
    values: &[i32],
    x: &[i32],
) -> Result<Vec<i32, Global>, Refused>
    ensures { Gives (λ v. v.items) result (checked_product_of lengths.now columns.now values.now x.now) }
{
    let rows = segments(lengths)?;
    check_limit(columns)?;
    checked_rows_product(alloc, &rows, columns, values, x)
}

/// The lengths of the rows between offsets, one offset more than rows. `TooLong`, without a place, if there are more than
/// 2,147,483,648 offsets, and then the faults of [`row_lengths`].
fn lengths_between(alloc: Global, offsets: &[i32]) -> Result<Vec<i32, Global>, Refused>
    ensures { Gives (λ v. v.items) result (by_row_offsets offsets.now (λ lengths. Ok lengths)) }
{
    if offsets.len() > MOST_PLACES + 1 {
        return Err(Refused::Fault(Fault::new(FaultNo::TooLong)));
    }
    row_lengths(alloc, offsets)
}

/// [`product`] of rows given by their offsets.
pub fn product_by_offsets(
    alloc: Global,
    offsets: &[i32],
    columns: &[i32],
    values: &[i32],
    x: &[i32],
) -> Result<Vec<i32, Global>, Refused>
    ensures { Gives (λ v. v.items) result (product_by_offsets_of offsets.now columns.now values.now x.now) }
{
    let lengths = lengths_between(alloc, offsets)?;
    product(alloc, &lengths, columns, values, x)
}

/// [`checked_product`] of rows given by their offsets.
pub fn checked_product_by_offsets(
    alloc: Global,
    offsets: &[i32],
    columns: &[i32],
    values: &[i32],
    x: &[i32],
) -> Result<Vec<i32, Global>, Refused>
    ensures { Gives (λ v. v.items) result (checked_product_by_offsets_of offsets.now columns.now values.now x.now) }
{
    let lengths = lengths_between(alloc, offsets)?;
    checked_product(alloc, &lengths, columns, values, x)
}
