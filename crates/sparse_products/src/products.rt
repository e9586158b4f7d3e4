//! The product on several threads if that pays. Each thread gets rows with about as many entries.

ghost use Rattle.std.specs.Prelude.{◌≤◌, ◌+◌, length};
ghost use Rattle.cvl_base.specs.Gives.{Gives};
ghost use Rattle.cvl_base.specs.Limits.{most_elements};
ghost use Rattle.sparse_products.specs.Answers.{checked_sparse_product_by_offsets_of, checked_sparse_product_of};
ghost use Rattle.sparse_products.specs.Answers.{sparse_product_by_offsets_of, sparse_product_of};
ghost use Rattle.sparse_products.specs.Rows.{product_by};

use crate::answers::{check_entries, product_or_fault};
use crate::offsets::row_lengths;
use crate::row_counts::rows_of;
use crate::row_sums::{Checked, Wrapping};
use crate::row_walks::{RowByRow, RowValues, RowWalk};
use cvl_base::{Config, Memory, Refused};
use fresh::write_checked_in_runs;
use segdes::SegLengths;
use sharing::threads_writing;
use std::marker::PhantomData;
use std::thread::Threads;

/// The product by a rule.
fn product_in_runs<S: RowWalk + Send + Sync, R: Threads + Sync, A: Memory>(
    rt: &R,
    alloc: A,
    config: Config,
    rows: &SegLengths,
    columns: &[i32],
    values: &[i32],
    x: &[i32],
) -> Result<Vec<i32, A>, Refused>
    requires { length columns.now ≤ most_elements }
    ensures { Gives (λ y. y.items) result (product_by S.rule rows.now columns.now values.now x.now) }
{
    check_entries(columns, values, x.len(), rows.total())?;
    let matrix: RowValues<'_, S> = RowValues {
        rows,
        columns,
        values,
        x,
        rule: PhantomData,
    };
    let count = rows.count();
    let threads = threads_writing(config, columns.len().max(count));
    let (written, found) = write_checked_in_runs(rt, alloc, threads, &matrix, count)?;
    product_or_fault::<S, A>(columns, x.len(), written, found)
}

/// The product of a sparse matrix with the vector `x`, in one walk over the rows on one thread or several.
///
/// Row r has `lengths[r]` entries; `columns` and `values` are those of all entries, row after row. The product has one element
/// for each row, 0 if it has no entries. Sums and products wrap to 32 bits. There are at most 4,194,304 lengths, and as many
/// columns.
///
/// Faults come in this order: `NegativeLength` at the first negative length; `TooLong` if the lengths add up to more than
/// 4,194,304; `IndexOutOfRange` at the first entry whose column is no place of `x`; `LengthMismatch` if columns and values differ
/// in number, or the lengths don't add up to it. Source: Blelloch, Vector Models for Data-Parallel Computing, 1990.
pub fn sparse_product<R: Threads + Sync, A: Memory>(
    rt: &R,
    alloc: A,
    config: Config,
    lengths: &[i32],
    columns: &[i32],
    values: &[i32],
    x: &[i32],
) -> Result<Vec<i32, A>, Refused>
    requires lengths { length lengths.now ≤ most_elements }
    requires columns { length columns.now ≤ most_elements }
    ensures { Gives (λ y. y.items) result (sparse_product_of lengths.now columns.now values.now x.now) }
{
    let rows = rows_of(lengths)?;
    product_in_runs::<Wrapping, R, A>(rt, alloc, config, &rows, columns, values, x)
}

/// The same product in whole numbers: `Overflow` at the first row whose sum doesn't fit 32 bits, which comes last.
pub fn checked_sparse_product<R: Threads + Sync, A: Memory>(
    rt: &R,
    alloc: A,
    config: Config,
    lengths: &[i32],
    columns: &[i32],
    values: &[i32],
    x: &[i32],
) -> Result<Vec<i32, A>, Refused>
    requires lengths { length lengths.now ≤ most_elements }
    requires columns { length columns.now ≤ most_elements }
    ensures { Gives (λ y. y.items) result (checked_sparse_product_of lengths.now columns.now values.now x.now) }
{
    let rows = rows_of(lengths)?;
    product_in_runs::<RowByRow<Checked>, R, A>(rt, alloc, config, &rows, columns, values, x)
}

/// [`sparse_product`] of rows given by offsets, one more than rows: row r has the entries from the one at offset r to the one
/// before offset r + 1. The faults of [`row_lengths`] come first.
pub fn sparse_product_by_offsets<R: Threads + Sync, A: Memory>(
    rt: &R,
    alloc: A,
    config: Config,
    offsets: &[i32],
    columns: &[i32],
    values: &[i32],
    x: &[i32],
) -> Result<Vec<i32, A>, Refused>
    requires offsets { length offsets.now ≤ most_elements + 1 }
    requires columns { length columns.now ≤ most_elements }
    ensures { Gives (λ y. y.items) result
        (sparse_product_by_offsets_of offsets.now columns.now values.now x.now) }
{
    let lengths = row_lengths(alloc, offsets)?;
    sparse_product(rt, alloc, config, &lengths, columns, values, x)
}

/// [`checked_sparse_product`] of rows given by their offsets.
pub fn checked_sparse_product_by_offsets<R: Threads + Sync, A: Memory>(
    rt: &R,
    alloc: A,
    config: Config,
    offsets: &[i32],
    columns: &[i32],
    values: &[i32],
    x: &[i32],
) -> Result<Vec<i32, A>, Refused>
    requires offsets { length offsets.now ≤ most_elements + 1 }
    requires columns { length columns.now ≤ most_elements }
    ensures { Gives (λ y. y.items) result
        (checked_sparse_product_by_offsets_of offsets.now columns.now values.now x.now) }
{
    let lengths = row_lengths(alloc, offsets)?;
    checked_sparse_product(rt, alloc, config, &lengths, columns, values, x)
}
