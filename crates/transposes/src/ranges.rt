//! A range of the places of a transpose, which one of several callers writes.

ghost use Rattle.std.specs.Prelude.{◌≡◌, ◌+◌, ◌*◌, ◌<◌, ◌≤◌, MatchResult, length};
ghost use Rattle.cvl_base.specs.Faults.{fault};
ghost use Rattle.cvl_base.specs.Limits.{most_places};
ghost use Rattle.cvl_base.specs.declared.fault.FaultNo.TheVariants as no;
ghost use Rattle.cvl_base.specs.Rooms.{Overwrites};
ghost use Rattle.transposes.specs.Transposes.{AreTurned, transpose_range_of};

use crate::blocks::transpose_columns;
use crate::matrices::{Matrix, check_shape};
use crate::strided::write_strided;
use cvl_base::{Fault, FaultNo};

/// Writes the places of the transpose from that of this row and column of the matrix on: the rest of the column, whole columns,
/// and the beginning of one.
fn write_from<T: Copy>(matrix: &Matrix<T>, column: usize, row: usize, out: &mut [T])
    requires row { row < matrix.now.rows }
    requires some { 0 < length out.old }
    requires within { column * matrix.now.rows + row + length out.old ≤ length matrix.now.elements.now }
    ensures { AreTurned matrix.now.rows matrix.now.columns (column * matrix.now.rows + row)
        matrix.now.elements.now out.new }
{
    let (source, rows, columns) = (matrix.elements, matrix.rows, matrix.columns);
    let head = out.len().min(rows - row);
    write_strided(source, row * columns + column, columns, head, out, 0);
    let whole = (out.len() - head) / rows;
    let tail = head + whole * rows;
    transpose_columns(matrix, column + 1, whole, &mut out[head..tail]);
    write_strided(
        source,
        column + 1 + whole,
        columns,
        out.len() - tail,
        out,
        tail,
    );
}

/// `LengthMismatch` if `count` places from place `lowest` on end beyond the last of the elements.
fn check_range(lowest: usize, count: usize, elements: usize) -> Result<(), Fault>
    ensures { MatchResult result (λ _. lowest + count ≤ elements)
        (λ f. (f ≡ fault no.LengthMismatch) × (elements < lowest + count)) }
{
    if lowest > elements || count > elements - lowest {
        return Err(Fault::new(FaultNo::LengthMismatch));
    }
    Ok(())
}

/// The places of a transpose from place `lowest` on, as many as the room has.
///
/// The matrix has `rows` rows of `columns` elements each, at most 2,147,483,647 in all. `LengthMismatch`, without a place, if
/// that is not the length of the source, or if the range ends beyond its last place; the room is then as before.
pub fn transpose_range_over<T: Copy>(
    source: &[T],
    rows: usize,
    columns: usize,
    lowest: usize,
    out: &mut [T],
) -> Result<(), Fault>
    requires in_limit { length source.now ≤ most_places }
    ensures { Overwrites (transpose_range_of rows columns lowest (length out.old) source.now) result out.old out.new }
{
    check_shape(rows, columns, source.len())?;
    check_range(lowest, out.len(), source.len())?;
    if !out.is_empty() {
        let matrix = Matrix {
            elements: source,
            rows,
            columns,
        };
        write_from(&matrix, lowest / rows, lowest % rows, out);
    }
    Ok(())
}
