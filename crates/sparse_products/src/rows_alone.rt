//! The product on the calling thread, for code that has no runtime.

ghost use Rattle.std.specs.Prelude.{◌≤◌, length};
ghost use Rattle.cvl_base.specs.Gives.{Gives};
ghost use Rattle.cvl_base.specs.Limits.{most_places};
ghost use Rattle.sparse_products.specs.Answers.{checked_rows_product, rows_product};
ghost use Rattle.sparse_products.specs.Rows.{product_by};

use crate::answers::{check_entries, product_or_fault};
use crate::matrix_rows::Rows;
use crate::row_sums::{Checked, Wrapping};
use crate::row_walks::{RowByRow, RowWalk};
use cvl_base::Refused;
use fresh::Room;
use segdes::SegLengths;
use std::alloc::Allocator;

/// The product by a rule.
fn product_alone<S: RowWalk, A: Allocator>(
    alloc: A,
    rows: &SegLengths,
    columns: &[i32],
    values: &[i32],
    x: &[i32],
) -> Result<Vec<i32, A>, Refused>
    requires { length columns.now ≤ most_places }
    ensures { Gives (λ y. y.items) result (product_by S.rule rows.now columns.now values.now x.now) }
{
    check_entries(columns, values, x.len(), rows.total())?;
    let (room, run) = Room::new(alloc, rows.count())?;
    let all_rows = Rows {
        lengths: rows.lengths(),
        columns,
        values,
    };
    let (run, found) = S::walk(run, &all_rows, x);
    product_or_fault::<S, A>(columns, x.len(), room.into_vec(run), found)
}

/// The product of a sparse matrix with the vector `x`. Sums and products wrap to 32 bits. It has one element for each row, 0 if
/// it has no entries; `columns` and `values` are those of all entries, row after row, at most 2,147,483,647.
///
/// `IndexOutOfRange` at the first entry whose column is no place of `x`; `LengthMismatch`, without a place, if columns and values
/// differ in number, or the rows don't have as many entries. It takes memory for the product. Source: Blelloch, Vector Models for
/// Data-Parallel Computing, 1990.
pub fn rows_product<A: Allocator>(
    alloc: A,
    rows: &SegLengths,
    columns: &[i32],
    values: &[i32],
    x: &[i32],
) -> Result<Vec<i32, A>, Refused>
    requires { length columns.now ≤ most_places }
    ensures { Gives (λ y. y.items) result (rows_product rows.now columns.now values.now x.now) }
{
    product_alone::<Wrapping, A>(alloc, rows, columns, values, x)
}

/// The same product in whole numbers: `Overflow` at the first row whose sum doesn't fit 32 bits, which comes last.
pub fn checked_rows_product<A: Allocator>(
    alloc: A,
    rows: &SegLengths,
    columns: &[i32],
    values: &[i32],
    x: &[i32],
) -> Result<Vec<i32, A>, Refused>
    requires { length columns.now ≤ most_places }
    ensures { Gives (λ y. y.items) result (checked_rows_product rows.now columns.now values.now x.now) }
{
    product_alone::<RowByRow<Checked>, A>(alloc, rows, columns, values, x)
}
