//! Combining permutes and counts by place, of a whole vector and of each segment: each element is joined with what stands at the
//! place of the room that its index names.

ghost use Rattle.std.specs.Prelude.{length};
ghost use Rattle.c_calls.specs.Calls.{in_limit};
ghost use Rattle.c_calls.specs.Numbers.{bool_binary, int_monoid};
ghost use Rattle.c_calls.specs.Told.{RoomTold, Told};
ghost use Rattle.combining_permutes.specs.CombiningPermutes.{place_counts_of};
ghost use Rattle.cvl_base.specs.Scans.{bool_join_of, int_join_of};
ghost use Rattle.cvl_c.specs.ByLengths.{counts_by_lengths};
ghost use Rattle.cvl_c.specs.Combines.{combine_by, seg_combine_by};

use c_calls::checks::{check_limit, segments};
use c_calls::numbers::operator_of;
use c_calls::or_tell;
use c_calls::status::{CvlStatus, told_over};
use combining_permutes::{
    bool_combine_over, counts_over, int_combine_over, seg_bool_combine_over, seg_counts_over,
    seg_int_combine_over,
};
use cvl_base::{BoolBinary, IntMonoid};

/// At each place of the room what stood there, joined with each integer whose index names it.
#[unsafe(no_mangle)]
pub extern "C" fn cvl_proved_combine_permute_int(
    op: u32,
    source: &[i32],
    index: &[i32],
    out: &mut [i32],
) -> CvlStatus
    ensures { Told (combine_by (int_monoid op) int_join_of source.now index.now out.old) result out.old out.new }
{
    let operator = or_tell!(operator_of::<IntMonoid>(op));
    or_tell!(check_limit(index));
    or_tell!(check_limit(out));
    told_over::<i32>(int_combine_over(operator, source, index, out))
}

/// At each place of the room what stood there, joined with each boolean whose index names it.
#[unsafe(no_mangle)]
pub extern "C" fn cvl_proved_combine_permute_bool(
    op: u32,
    source: &[bool],
    index: &[i32],
    out: &mut [bool],
) -> CvlStatus
    ensures { Told (combine_by (bool_binary op) bool_join_of source.now index.now out.old) result out.old out.new }
{
    let operator = or_tell!(operator_of::<BoolBinary>(op));
    or_tell!(check_limit(index));
    or_tell!(check_limit(out));
    told_over::<bool>(bool_combine_over(operator, source, index, out))
}

/// For each place of the room how many indices name it.
#[unsafe(no_mangle)]
pub extern "C" fn cvl_proved_counts(index: &[i32], out: &mut [i32]) -> CvlStatus
    ensures { Told (in_limit index.now (in_limit out.old (place_counts_of index.now (length out.old)))) result out.old out.new }
{
    or_tell!(check_limit(index));
    or_tell!(check_limit(out));
    told_over::<i32>(counts_over(index, out))
}

/// The same of integers in segments, of which each has a segment of the room.
#[unsafe(no_mangle)]
pub extern "C" fn cvl_proved_seg_combine_permute_int(
    op: u32,
    source: &[i32],
    index: &[i32],
    lengths: &[i32],
    result_lengths: &[i32],
    out: &mut [i32],
) -> CvlStatus
    ensures { Told (seg_combine_by (int_monoid op) int_join_of source.now index.now lengths.now result_lengths.now out.old)
        result out.old out.new }
{
    let operator = or_tell!(operator_of::<IntMonoid>(op));
    let d = or_tell!(segments(lengths));
    let result_d = or_tell!(segments(result_lengths));
    told_over::<i32>(seg_int_combine_over(operator, source, index, &d, &result_d, out))
}

/// The same of booleans in segments, of which each has a segment of the room.
#[unsafe(no_mangle)]
pub extern "C" fn cvl_proved_seg_combine_permute_bool(
    op: u32,
    source: &[bool],
    index: &[i32],
    lengths: &[i32],
    result_lengths: &[i32],
    out: &mut [bool],
) -> CvlStatus
    ensures { Told (seg_combine_by (bool_binary op) bool_join_of source.now index.now lengths.now result_lengths.now out.old)
        result out.old out.new }
{
    let operator = or_tell!(operator_of::<BoolBinary>(op));
    let d = or_tell!(segments(lengths));
    let result_d = or_tell!(segments(result_lengths));
    told_over::<bool>(seg_bool_combine_over(operator, source, index, &d, &result_d, out))
}

/// For each place of each segment of the room how many indices of the same segment name it.
#[unsafe(no_mangle)]
pub extern "C" fn cvl_proved_seg_counts(
    index: &[i32],
    lengths: &[i32],
    result_lengths: &[i32],
    out: &mut [i32],
) -> CvlStatus
    ensures { RoomTold (counts_by_lengths index.now lengths.now result_lengths.now) result out.old out.new }
{
    let d = or_tell!(segments(lengths));
    let result_d = or_tell!(segments(result_lengths));
    told_over::<i32>(seg_counts_over(index, &d, &result_d, out))
}
