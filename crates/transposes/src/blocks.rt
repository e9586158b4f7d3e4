//! Blocks of a matrix, transposed. A room may begin with any row of the transpose, which is a column of the matrix: column c of a
//! call is then column `from + c` of the matrix.

ghost use Rattle.std.specs.Prelude.{◌≡◌, ◌+◌, ◌-◌, ◌*◌, ◌<◌, ◌≤◌, length};
ghost use Rattle.transposes.specs.Transposes.{IsTransposedIn};

use crate::matrices::Matrix;
use crate::strided::write_strided;

/// The most rows and columns of a block: the lines of its elements stay in the first cache.
const BLOCK: usize = 32;

/// Transposes the block of the rows from `top` up to before `bottom` and the columns from `left` up to before `right`.
#[inline(never)]
fn write_block<T: Copy>(
    matrix: &Matrix<T>,
    from: usize,
    top: usize,
    bottom: usize,
    left: usize,
    right: usize,
    out: &mut [T],
)
    requires some_rows { top < bottom }
    requires rows_within { bottom ≤ matrix.now.rows }
    requires columns_in_order { left ≤ right }
    requires columns_within { from + right ≤ matrix.now.columns }
    requires room { right * matrix.now.rows ≤ length out.old }
    ensures { IsTransposedIn matrix.now.rows matrix.now.columns from top bottom left right
        matrix.now.elements.now out.old out.new }
{
    let (source, rows, columns) = (matrix.elements, matrix.rows, matrix.columns);
    for column in left..right {
        let first = top * columns + (from + column);
        write_strided(
            source,
            first,
            columns,
            bottom - top,
            out,
            column * rows + top,
        );
    }
}

/// Transposes the rows from `top` up to before `bottom`, all their columns, block by block.
fn write_band<T: Copy>(
    matrix: &Matrix<T>,
    from: usize,
    count: usize,
    top: usize,
    bottom: usize,
    out: &mut [T],
)
    requires some_rows { top < bottom }
    requires rows_within { bottom ≤ matrix.now.rows }
    requires columns_within { from + count ≤ matrix.now.columns }
    requires room { count * matrix.now.rows ≤ length out.old }
    ensures { IsTransposedIn matrix.now.rows matrix.now.columns from top bottom 0 count
        matrix.now.elements.now out.old out.new }
{
    let mut left = 0;
    while left < count {
        let right = left + BLOCK.min(count - left);
        write_block(matrix, from, top, bottom, left, right, out);
        left = right;
    }
}

/// Writes neighbouring rows of the transpose, which are `count` columns of the matrix from column `from` on. The room is as long
/// as these columns together.
pub(crate) fn transpose_columns<T: Copy>(
    matrix: &Matrix<T>,
    from: usize,
    count: usize,
    out: &mut [T],
)
    requires columns_within { from + count ≤ matrix.now.columns }
    requires room { length out.old ≡ count * matrix.now.rows }
    ensures { IsTransposedIn matrix.now.rows matrix.now.columns from 0 matrix.now.rows 0 count
        matrix.now.elements.now out.old out.new }
{
    let rows = matrix.rows;
    let mut top = 0;
    while top < rows {
        // rows without columns are one band, however many they are
        let band = if count == 0 { rows } else { BLOCK };
        let bottom = top + band.min(rows - top);
        write_band(matrix, from, count, top, bottom, out);
        top = bottom;
    }
}
