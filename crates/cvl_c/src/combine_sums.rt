//! Combining permutes by sums that never wrap, of a whole vector and of each segment; one range of their room; and the steps of
//! such a call in parts.

ghost use Rattle.c_calls.specs.Calls.{in_limit};
ghost use Rattle.c_calls.specs.Told.{RoomTold, Told, ToldOr};
ghost use Rattle.cvl_c.specs.CombineSums.{checked_by, exact_by, seg_checked_by, seg_exact_by};
ghost use Rattle.long_sums.specs.RoomSums.{all_fitting};
ghost use Rattle.part_calls.specs.CombineRanges.{exact_range_of};

use crate::senders::told_counted;
use c_calls::checks::{check_limit, segments};
use c_calls::or_tell;
use c_calls::status::{CvlStatus, told_over, told_over_or};
use exact_combines::{
    checked_combine_over, exact_sums_over, seg_checked_combine_over, seg_exact_sums_over,
};
use long_sums::ints_from_sums_over;
use part_calls::combine_ranges::exact_sums_range_checked;
use std::alloc::Global;

/// At each place of the room the sum that stood there, plus each integer whose index names it, exact in 64 bits.
#[unsafe(no_mangle)]
pub extern "C" fn cvl_proved_combine_exact_sums(
    source: &[i32],
    index: &[i32],
    out: &mut [i64],
) -> CvlStatus
    ensures { Told (exact_by source.now index.now out.old) result out.old out.new }
{
    or_tell!(check_limit(index));
    or_tell!(check_limit(out));
    told_over::<i64>(exact_sums_over(source, index, out))
}

/// The same of integers in segments, of which each has a segment of the room.
#[unsafe(no_mangle)]
pub extern "C" fn cvl_proved_seg_combine_exact_sums(
    source: &[i32],
    index: &[i32],
    lengths: &[i32],
    result_lengths: &[i32],
    out: &mut [i64],
) -> CvlStatus
    ensures { Told (seg_exact_by source.now index.now lengths.now result_lengths.now out.old) result out.old out.new }
{
    let d = or_tell!(segments(lengths));
    let result_d = or_tell!(segments(result_lengths));
    or_tell!(check_limit(index));
    or_tell!(check_limit(out));
    told_over::<i64>(seg_exact_sums_over(source, index, &d, &result_d, out))
}

/// At each place of the room what stood there, plus each integer whose index names it, which has to fit 32 bits.
#[unsafe(no_mangle)]
pub extern "C" fn cvl_proved_combine_checked_int(
    alloc: Global,
    source: &[i32],
    index: &[i32],
    out: &mut [i32],
) -> CvlStatus
    ensures { ToldOr (checked_by source.now index.now out.old) result out.old out.new }
{
    or_tell!(check_limit(index));
    or_tell!(check_limit(out));
    told_over_or::<i32>(checked_combine_over(alloc, source, index, out))
}

/// The same of integers in segments, of which each has a segment of the room.
#[unsafe(no_mangle)]
pub extern "C" fn cvl_proved_seg_combine_checked_int(
    alloc: Global,
    source: &[i32],
    index: &[i32],
    lengths: &[i32],
    result_lengths: &[i32],
    out: &mut [i32],
) -> CvlStatus
    ensures { ToldOr (seg_checked_by source.now index.now lengths.now result_lengths.now out.old) result out.old out.new }
{
    let d = or_tell!(segments(lengths));
    let result_d = or_tell!(segments(result_lengths));
    or_tell!(check_limit(index));
    or_tell!(check_limit(out));
    told_over_or::<i32>(seg_checked_combine_over(alloc, source, index, &d, &result_d, out))
}

/// Adds to the sums in one range of the room, from place `lowest` on, each integer whose index names a place of it, and counts
/// these.
#[unsafe(no_mangle)]
pub extern "C" fn cvl_proved_combine_exact_sums_range(
    source: &[i32],
    index: &[i32],
    lowest: usize,
    out: &mut [i64],
    named: &mut usize,
) -> CvlStatus
    ensures { Told (exact_range_of source.now index.now lowest out.old) result (out.old, named.old) (out.new, named.new) }
{
    told_counted::<i64>(exact_sums_range_checked(source, index, lowest, out), named)
}

/// Each sum as an integer, which has to fit 32 bits.
#[unsafe(no_mangle)]
pub extern "C" fn cvl_proved_ints_from_sums(sums: &[i64], out: &mut [i32]) -> CvlStatus
    ensures { RoomTold (in_limit sums.now (all_fitting 0 sums.now)) result out.old out.new }
{
    or_tell!(check_limit(sums));
    told_over::<i32>(ints_from_sums_over(sums, out))
}
