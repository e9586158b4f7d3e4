//! The walk over the rows for sums that wrap: it adds up the entries of some rows together, and each row is the sum at its end,
//! less the one at its start. So no branch depends on the length of a short row, which no processor foresees.

ghost use Rattle.std.specs.Prelude.{◌≡◌, ◌+◌, ◌≤◌, ◌<◌, ◌-ℤ◌, length, map, sum, unsigned_abs, IsTrue};
ghost use Rattle.std.specs.List.{zip};
ghost use Rattle.cvl_base.specs.Descriptors.{AreLengthsWithin};
ghost use Rattle.cvl_base.specs.Integers.{wrap};
ghost use Rattle.cvl_base.specs.Limits.{most_places};
ghost use Rattle.fresh.specs.Found.{first_without};
ghost use Rattle.fresh.specs.Places.{with_items};
ghost use Rattle.sparse_products.specs.EntrySums.{AreSums, between};
ghost use Rattle.sparse_products.specs.Products.{rows_of};
ghost use Rattle.sparse_products.specs.Rows.{row_item, row_value, wrapping};

use crate::matrix_rows::Rows;
use crate::row_counts::entries_of;
use crate::row_sums::{Wrapping, element_of, with_product};
use crate::row_walks::{RowByRow, RowWalk};
use cvl_base::Binary;
use cvl_base::integer::Sub;
use fresh::Run;

/// How many rows are taken together.
const GROUP: usize = 64;

/// The sums of the entries of a group, with the one before the first entry. If rows have more entries, each is added up by
/// itself, since the branch at its end is then rare.
const SUMS: usize = 2049;

/// From this many entries on groups pay, whose sums are cleared first.
const LEAST: usize = 1024;

/// Writes the sum of the first k entries for each k, and returns whether each column is a place of `x`.
fn sums_into(sums: &mut [i32], columns: &[i32], values: &[i32], x: &[i32]) -> bool
    requires as_many { length values.now ≡ length columns.now }
    requires room { length columns.now < length sums.old }
    ensures { IsTrue result → AreSums x.now (zip columns.now values.now) sums.new }
{
    let mut sum = 0;
    sums[0] = 0;
    for k in 0..columns.len() {
        match element_of(x, &columns[k]) {
            None => return false,
            Some(element) => {
                sum = with_product(&sum, &values[k], &element);
                sums[k + 1] = sum;
            }
        }
    }
    true
}

/// A sum less another, wrapped to 32 bits.
#[inline(always)]
fn difference(sum: &i32, before: &i32) -> i32
    ensures { result ≡ wrap (sum.now -ℤ before.now) }
{
    Sub::apply(*sum, *before)
}

/// Writes the sums of the rows with these lengths, from those of the first entries.
fn differences_into(run: Run<i32>, lengths: &[i32], sums: &[i32]) -> Run<i32>
    requires lengths { AreLengthsWithin most_places lengths.now }
    requires covered { sum (map unsigned_abs lengths.now) < length sums.now }
    requires room { length lengths.now ≤ run.room }
    ensures { result ≡ with_items run (between sums.now 0 (map unsigned_abs lengths.now)) }
{
    let (mut run, mut start) = (run, 0);
    for length in lengths {
        let end = start + *length as usize;
        run.push(difference(&sums[end], &sums[start]));
        start = end;
    }
    run
}

/// Writes the values of a group of rows, as [`RowWalk::walk`] does.
fn group_into(run: Run<i32>, sums: &mut [i32], rows: &Rows, x: &[i32]) -> (Run<i32>, Option<usize>)
    requires room { length rows.now.lengths.now ≤ run.room }
    ensures run { result.0 ≡ with_items run (map (row_item wrapping x.now)
        (rows_of rows.now.lengths.now rows.now.columns.now rows.now.values.now)) }
    ensures found { result.1 ≡ first_without (run.first + length run.items) (map (row_value wrapping x.now)
        (rows_of rows.now.lengths.now rows.now.columns.now rows.now.values.now)) }
{
    if rows.columns.len() < sums.len() && sums_into(sums, rows.columns, rows.values, x) {
        return (differences_into(run, rows.lengths, sums), None);
    }
    RowByRow::<Wrapping>::walk(run, rows, x)
}

/// Rows are added up group by group.
struct GroupByGroup;

impl RowWalk for GroupByGroup {
    ghost use Rattle.sparse_products.specs.Rows.{wrapping};

    ghost rule = { wrapping };

    fn walk(run: Run<i32>, rows: &Rows, x: &[i32]) -> (Run<i32>, Option<usize>) {
        let mut sums = [0; SUMS];
        let (mut run, mut found, mut first) = (run, None, 0);
        let (mut columns_left, mut values_left) = (rows.columns, rows.values);
        while first < rows.lengths.len() {
            let next = (first + GROUP).min(rows.lengths.len());
            let lengths = &rows.lengths[first..next];
            let entries = entries_of(lengths);
            let (columns, later_columns) = columns_left.split_at(entries);
            let (values, later_values) = values_left.split_at(entries);
            let group = Rows {
                lengths,
                columns,
                values,
            };
            let (written, missing) = group_into(run, &mut sums, &group, x);
            run = written;
            found = found.or(missing);
            columns_left = later_columns;
            values_left = later_values;
            first = next;
        }
        (run, found)
    }
}

/// Rows are added up group by group, but for a few entries.
impl RowWalk for Wrapping {
    ghost use Rattle.sparse_products.specs.Rows.{wrapping};

    ghost rule = { wrapping };

    fn walk(run: Run<i32>, rows: &Rows, x: &[i32]) -> (Run<i32>, Option<usize>) {
        if rows.columns.len() < LEAST {
            return RowByRow::<Wrapping>::walk(run, rows, x);
        }
        GroupByGroup::walk(run, rows, x)
    }
}
