//! First senders, of a whole vector and of each segment, by an index of at most 2,147,483,647 elements; and one range of their
//! result.

ghost use Rattle.std.specs.Prelude.{ℕ, List, Result, length};
ghost use Rattle.c_calls.specs.Calls.{in_limit};
ghost use Rattle.c_calls.specs.Told.{RoomTold, Told};
ghost use Rattle.cvl_base.specs.declared.fault.Fault.{Fault};
ghost use Rattle.cvl_c.specs.ByLengths.{first_senders_by_lengths, select_first_senders_by_lengths};
ghost use Rattle.first_senders.specs.FirstSenders.{first_senders_of, select_first_senders_of};
ghost use Rattle.part_calls.specs.CountedRanges.{WritesCounted};
ghost use Rattle.part_calls.specs.SenderRanges.{select_senders_range_of, senders_range_of};

use c_calls::checks::{check_limit, segments};
use c_calls::or_tell;
use c_calls::status::{CvlStatus, done, status_of, told_over};
use cvl_base::Fault;
use first_senders::{
    first_senders_over, seg_first_senders_over, seg_select_first_senders_over,
    select_first_senders_over,
};
use part_calls::sender_ranges::{select_senders_range, senders_range};

/// For each place of the room the least place whose index names it, or -1.
#[unsafe(no_mangle)]
pub extern "C" fn cvl_proved_first_senders(index: &[i32], out: &mut [i32]) -> CvlStatus
    ensures { Told (in_limit index.now (first_senders_of index.now (length out.old))) result out.old out.new }
{
    or_tell!(check_limit(index));
    told_over::<i32>(first_senders_over(index, out))
}

/// The same for the places whose flag is true.
#[unsafe(no_mangle)]
pub extern "C" fn cvl_proved_select_first_senders(
    index: &[i32],
    flags: &[bool],
    out: &mut [i32],
) -> CvlStatus
    ensures { Told (in_limit index.now (select_first_senders_of index.now flags.now (length out.old))) result out.old out.new }
{
    or_tell!(check_limit(index));
    told_over::<i32>(select_first_senders_over(index, flags, out))
}

/// For each place of each segment of the result the least place of the same segment of the index that names it, or -1.
#[unsafe(no_mangle)]
pub extern "C" fn cvl_proved_seg_first_senders(
    index: &[i32],
    lengths: &[i32],
    result_lengths: &[i32],
    out: &mut [i32],
) -> CvlStatus
    ensures { RoomTold (first_senders_by_lengths index.now lengths.now result_lengths.now) result out.old out.new }
{
    let d = or_tell!(segments(lengths));
    let result_d = or_tell!(segments(result_lengths));
    or_tell!(check_limit(index));
    told_over::<i32>(seg_first_senders_over(index, &d, &result_d, out))
}

/// The same for the places whose flag is true.
#[unsafe(no_mangle)]
pub extern "C" fn cvl_proved_seg_select_first_senders(
    index: &[i32],
    flags: &[bool],
    lengths: &[i32],
    result_lengths: &[i32],
    out: &mut [i32],
) -> CvlStatus
    ensures { RoomTold (select_first_senders_by_lengths index.now flags.now lengths.now result_lengths.now)
        result out.old out.new }
{
    let d = or_tell!(segments(lengths));
    let result_d = or_tell!(segments(result_lengths));
    or_tell!(check_limit(index));
    told_over::<i32>(seg_select_first_senders_over(index, flags, &d, &result_d, out))
}

/// The status of a call that may write a range of a result, and how many indices name a place of it.
pub(crate) fn told_counted<T>(answer: Result<usize, Fault>, named: &mut usize) -> CvlStatus
    ensures { (meaning : Result (List T × ℕ) Fault) (out now : List T) → WritesCounted meaning answer out now
        → Told meaning result (out, named.old) (now, named.new) }
{
    match answer {
        Ok(count) => {
            *named = count;
            done()
        }
        Err(fault) => status_of(fault.into()),
    }
}

/// The first senders of one range of the result, from place `lowest` on, and how many indices name a place of it.
#[unsafe(no_mangle)]
pub extern "C" fn cvl_proved_first_senders_range(
    index: &[i32],
    lowest: usize,
    out: &mut [i32],
    named: &mut usize,
) -> CvlStatus
    ensures { Told (senders_range_of index.now lowest (length out.old)) result (out.old, named.old) (out.new, named.new) }
{
    told_counted::<i32>(senders_range(index, lowest, out), named)
}

/// The same for the places whose flag is true.
#[unsafe(no_mangle)]
pub extern "C" fn cvl_proved_select_first_senders_range(
    index: &[i32],
    flags: &[bool],
    lowest: usize,
    out: &mut [i32],
    named: &mut usize,
) -> CvlStatus
    ensures { Told (select_senders_range_of index.now flags.now lowest (length out.old)) result
        (out.old, named.old) (out.new, named.new) }
{
    told_counted::<i32>(select_senders_range(index, flags, lowest, out), named)
}
