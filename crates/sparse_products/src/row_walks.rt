//! The walk over the rows of a matrix, which sums up and writes each; of all rows, or of one thread's share.

ghost use Rattle.std.specs.Prelude.{◌≡◌, length, sum};

use crate::matrix_rows::Rows;
use crate::row_counts::{entries_of, rows_of_share};
use crate::row_sums::RowSum;
use fresh::{CheckedWriter, Run, first_found};
use segdes::SegLengths;
use std::marker::PhantomData;

/// A walk over the rows of a matrix, by a rule for the sum of a row.
pub(crate) trait RowWalk {
    ghost use Rattle.std.specs.Prelude.{◌≡◌, ◌+◌, ◌≤◌, ℤ, Option, length, map};
    ghost use Rattle.fresh.specs.Found.{first_without};
    ghost use Rattle.fresh.specs.Places.{with_items};
    ghost use Rattle.sparse_products.specs.Products.{rows_of};
    ghost use Rattle.sparse_products.specs.Rows.{row_item, row_value};

    ghost rule: { ℤ → Option ℤ };

    /// Writes the values of the rows, 0 for a row that has none, and tells the place of the first of these. The run must have
    /// room for one element for each row.
    fn walk(run: Run<i32>, rows: &Rows, x: &[i32]) -> (Run<i32>, Option<usize>)
        requires room { length rows.now.lengths.now ≤ run.room }
        ensures run { result.0 ≡ with_items run (map (row_item rule x.now)
            (rows_of rows.now.lengths.now rows.now.columns.now rows.now.values.now)) }
        ensures found { result.1 ≡ first_without (run.first + length run.items) (map (row_value rule x.now)
            (rows_of rows.now.lengths.now rows.now.columns.now rows.now.values.now)) };
}

/// Each row is added up by itself.
pub(crate) struct RowByRow<S>(PhantomData<S>);

impl<S: RowSum> RowWalk for RowByRow<S> {
    ghost rule = { S.rule };

    fn walk(run: Run<i32>, rows: &Rows, x: &[i32]) -> (Run<i32>, Option<usize>) {
        let (mut run, mut found) = (run, None);
        let (mut columns_left, mut values_left) = (rows.columns, rows.values);
        for length in rows.lengths {
            let entries = *length as usize;
            let (columns, later_columns) = columns_left.split_at(entries);
            let (values, later_values) = values_left.split_at(entries);
            let value = S::value(columns, values, x);
            found = first_found(found, value, run.next_place());
            run.push(value.unwrap_or(0));
            columns_left = later_columns;
            values_left = later_values;
        }
        (run, found)
    }
}

/// Writes the values of the rows of a matrix.
#[derive(Drop)]
pub(crate) struct RowValues<'a, S> {
    pub(crate) rows: &'a SegLengths<'a>,
    pub(crate) columns: &'a [i32],
    pub(crate) values: &'a [i32],
    pub(crate) x: &'a [i32],
    pub(crate) rule: PhantomData<S>,
    ghost as_many: { length values.now ≡ length columns.now },
    ghost covered: { sum rows.now ≡ length columns.now },
}

impl<'a, S: RowWalk> CheckedWriter<i32> for RowValues<'a, S> {
    ghost use Rattle.std.specs.Prelude.{◌≡◌, ◌+◌, ◌≤◌, [], length, map};
    ghost use Rattle.std.specs.List.{zip};
    ghost use Rattle.cvl_base.specs.Nests.{cut_of};
    ghost use Rattle.fresh.specs.Found.{first_without};
    ghost use Rattle.fresh.specs.Parts.{part};
    ghost use Rattle.fresh.specs.Places.{stretch};
    ghost use Rattle.segdes.specs.Shares.{IsShareEnd};
    ghost use Rattle.sparse_products.specs.Rows.{row_item, row_value};

    ghost whole = { λ m. map (row_item S.rule m.x.now) (cut_of m.rows.now (zip m.columns.now m.values.now)) };

    ghost values = { λ m. map (row_value S.rule m.x.now) (cut_of m.rows.now (zip m.columns.now m.values.now)) };

    ghost IsShare = { λ m first room few threads places. IsShareEnd (part m.rows.now first room) 0 room few threads places };

    fn write(&self, run: Run<i32>) -> (Run<i32>, Option<usize>)
        requires empty { run.items ≡ [] }
        requires within { run.first + run.room ≤ length (map (row_item S.rule self.now.x.now)
            (cut_of self.now.rows.now (zip self.now.columns.now self.now.values.now))) }
        ensures run { result.0 ≡ stretch run.block run.first (part (map (row_item S.rule self.now.x.now)
            (cut_of self.now.rows.now (zip self.now.columns.now self.now.values.now))) run.first run.room) 0 }
        ensures found { result.1 ≡ first_without run.first (part (map (row_value S.rule self.now.x.now)
            (cut_of self.now.rows.now (zip self.now.columns.now self.now.values.now))) run.first run.room) }
    {
        let (first, count) = (run.next_place(), run.room());
        let (before, lengths) = self.rows.lengths().split_at(first);
        let (lengths, _) = lengths.split_at(count);
        let start = entries_of(before);
        let (_, columns) = self.columns.split_at(start);
        let (_, values) = self.values.split_at(start);
        let rows = Rows {
            lengths,
            columns,
            values,
        };
        S::walk(run, &rows, self.x)
    }

    /// Rows with about as many entries for each thread.
    fn share(&self, first: usize, room: usize, few: usize, threads: usize) -> usize {
        // its contract bounds the number of rows
        let _count = self.rows.count();
        let (_, lengths) = self.rows.lengths().split_at(first);
        let (lengths, _) = lengths.split_at(room);
        rows_of_share(lengths, few, threads)
    }
}
