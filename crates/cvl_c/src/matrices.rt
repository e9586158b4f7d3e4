//! Transposes of matrices in row order, and one range of their places.

ghost use Rattle.std.specs.Prelude.{length};
ghost use Rattle.c_calls.specs.Calls.{in_limit};
ghost use Rattle.c_calls.specs.Told.{RoomTold, Told};
ghost use Rattle.part_calls.specs.TransposeRanges.{few_turned_of};
ghost use Rattle.transposes.specs.Transposes.{transpose_of};

use c_calls::checks::check_limit;
use c_calls::or_tell;
use c_calls::status::{CvlStatus, told_over};
use part_calls::transpose_ranges::transpose_range_checked;
use transposes::transpose_over;

/// The transpose of a matrix of integers in row order.
#[unsafe(no_mangle)]
pub extern "C" fn cvl_proved_transpose_int(
    source: &[i32],
    rows: usize,
    columns: usize,
    out: &mut [i32],
) -> CvlStatus
    ensures { RoomTold (in_limit source.now (transpose_of rows columns source.now)) result out.old out.new }
{
    or_tell!(check_limit(source));
    told_over::<i32>(transpose_over(source, rows, columns, out))
}

/// The transpose of a matrix of booleans in row order.
#[unsafe(no_mangle)]
pub extern "C" fn cvl_proved_transpose_bool(
    source: &[bool],
    rows: usize,
    columns: usize,
    out: &mut [bool],
) -> CvlStatus
    ensures { RoomTold (in_limit source.now (transpose_of rows columns source.now)) result out.old out.new }
{
    or_tell!(check_limit(source));
    told_over::<bool>(transpose_over(source, rows, columns, out))
}

/// The places of the transpose of a matrix of integers from place `lowest` on, as many as the room has.
#[unsafe(no_mangle)]
pub extern "C" fn cvl_proved_transpose_int_range(
    source: &[i32],
    rows: usize,
    columns: usize,
    lowest: usize,
    out: &mut [i32],
) -> CvlStatus
    ensures { Told (few_turned_of rows columns lowest (length out.old) source.now) result out.old out.new }
{
    told_over::<i32>(transpose_range_checked(source, rows, columns, lowest, out))
}

/// The places of the transpose of a matrix of booleans from place `lowest` on, as many as the room has.
#[unsafe(no_mangle)]
pub extern "C" fn cvl_proved_transpose_bool_range(
    source: &[bool],
    rows: usize,
    columns: usize,
    lowest: usize,
    out: &mut [bool],
) -> CvlStatus
    ensures { Told (few_turned_of rows columns lowest (length out.old) source.now) result out.old out.new }
{
    told_over::<bool>(transpose_range_checked(source, rows, columns, lowest, out))
}
