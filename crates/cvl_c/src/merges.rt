//! Merges by flags, of whole vectors and of each segment.

ghost use Rattle.c_calls.specs.Calls.{in_limit};
ghost use Rattle.c_calls.specs.Told.{RoomTold};
ghost use Rattle.cvl_c.specs.ByLengths.{merge_by_lengths};
ghost use Rattle.flag_merges.specs.Merges.{merge_of};

use c_calls::checks::{check_limit, segments};
use c_calls::or_tell;
use c_calls::status::{CvlStatus, told_over};
use flag_merges::{merge_by_flags_over, seg_merge_by_flags_over};

/// The next integer of one vector if the flag is true, and of the other if it is false.
#[unsafe(no_mangle)]
pub extern "C" fn cvl_proved_merge_by_flags_int(
    flags: &[bool],
    when_true: &[i32],
    when_false: &[i32],
    out: &mut [i32],
) -> CvlStatus
    ensures { RoomTold (in_limit flags.now (merge_of flags.now when_true.now when_false.now)) result out.old out.new }
{
    or_tell!(check_limit(flags));
    told_over::<i32>(merge_by_flags_over(flags, when_true, when_false, out))
}

/// The next boolean of one vector if the flag is true, and of the other if it is false.
#[unsafe(no_mangle)]
pub extern "C" fn cvl_proved_merge_by_flags_bool(
    flags: &[bool],
    when_true: &[bool],
    when_false: &[bool],
    out: &mut [bool],
) -> CvlStatus
    ensures { RoomTold (in_limit flags.now (merge_of flags.now when_true.now when_false.now)) result out.old out.new }
{
    or_tell!(check_limit(flags));
    told_over::<bool>(merge_by_flags_over(flags, when_true, when_false, out))
}

/// The merge of each segment by the flags of the segment, of integers.
#[unsafe(no_mangle)]
pub extern "C" fn cvl_proved_seg_merge_by_flags_int(
    flags: &[bool],
    when_true: &[i32],
    when_false: &[i32],
    lengths: &[i32],
    true_lengths: &[i32],
    false_lengths: &[i32],
    out: &mut [i32],
) -> CvlStatus
    ensures { RoomTold (merge_by_lengths flags.now lengths.now when_true.now true_lengths.now when_false.now false_lengths.now)
        result out.old out.new }
{
    let d = or_tell!(segments(lengths));
    let true_d = or_tell!(segments(true_lengths));
    let false_d = or_tell!(segments(false_lengths));
    told_over::<i32>(seg_merge_by_flags_over(
        flags, &d, when_true, &true_d, when_false, &false_d, out,
    ))
}

/// The merge of each segment by the flags of the segment, of booleans.
#[unsafe(no_mangle)]
pub extern "C" fn cvl_proved_seg_merge_by_flags_bool(
    flags: &[bool],
    when_true: &[bool],
    when_false: &[bool],
    lengths: &[i32],
    true_lengths: &[i32],
    false_lengths: &[i32],
    out: &mut [bool],
) -> CvlStatus
    ensures { RoomTold (merge_by_lengths flags.now lengths.now when_true.now true_lengths.now when_false.now false_lengths.now)
        result out.old out.new }
{
    let d = or_tell!(segments(lengths));
    let true_d = or_tell!(segments(true_lengths));
    let false_d = or_tell!(segments(false_lengths));
    told_over::<bool>(seg_merge_by_flags_over(
        flags, &d, when_true, &true_d, when_false, &false_d, out,
    ))
}
