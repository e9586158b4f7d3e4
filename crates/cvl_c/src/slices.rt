//! Slices and segments in order, and values of segments that no operator joins.

ghost use Rattle.std.specs.Prelude.{Ok};
ghost use Rattle.c_calls.specs.Calls.{by_segments, in_limit};
ghost use Rattle.c_calls.specs.Told.{RoomTold, Told};
ghost use Rattle.cvl_base.specs.Exact.{total_of};
ghost use Rattle.cvl_c.specs.ByLengths.{append_by_lengths, gather_by_lengths};
ghost use Rattle.flag_calls.specs.Flags.{flag_of};
ghost use Rattle.segment_values.specs.Values.{each_of, first_by};

use c_calls::checks::{check_limit, segments};
use c_calls::or_tell;
use c_calls::status::{CvlStatus, told_one, told_over};
use cvl_base::Single;
use flag_calls::flag_of;
use segment_slices::{append_segments_over, gather_segments_over};
use segment_values::{first_that, seg_exact_sums_over, seg_first_that_over};

/// The slices of integers with these starts and lengths, in order.
#[unsafe(no_mangle)]
pub extern "C" fn cvl_proved_gather_segments_int(
    source: &[i32],
    starts: &[i32],
    lengths: &[i32],
    out: &mut [i32],
) -> CvlStatus
    ensures { RoomTold (gather_by_lengths source.now starts.now lengths.now) result out.old out.new }
{
    or_tell!(segments(lengths));
    or_tell!(check_limit(starts));
    told_over::<i32>(gather_segments_over(source, starts, lengths, out))
}

/// The slices of booleans with these starts and lengths, in order.
#[unsafe(no_mangle)]
pub extern "C" fn cvl_proved_gather_segments_bool(
    source: &[bool],
    starts: &[i32],
    lengths: &[i32],
    out: &mut [bool],
) -> CvlStatus
    ensures { RoomTold (gather_by_lengths source.now starts.now lengths.now) result out.old out.new }
{
    or_tell!(segments(lengths));
    or_tell!(check_limit(starts));
    told_over::<bool>(gather_segments_over(source, starts, lengths, out))
}

/// The segments of integers, each followed by the segment of other integers with its number.
#[unsafe(no_mangle)]
pub extern "C" fn cvl_proved_append_segments_int(
    a: &[i32],
    b: &[i32],
    lengths: &[i32],
    other_lengths: &[i32],
    out: &mut [i32],
) -> CvlStatus
    ensures { RoomTold (append_by_lengths a.now lengths.now b.now other_lengths.now) result out.old out.new }
{
    let d = or_tell!(segments(lengths));
    let other = or_tell!(segments(other_lengths));
    told_over::<i32>(append_segments_over(a, &d, b, &other, out))
}

/// The segments of booleans, each followed by the segment of other booleans with its number.
#[unsafe(no_mangle)]
pub extern "C" fn cvl_proved_append_segments_bool(
    a: &[bool],
    b: &[bool],
    lengths: &[i32],
    other_lengths: &[i32],
    out: &mut [bool],
) -> CvlStatus
    ensures { RoomTold (append_by_lengths a.now lengths.now b.now other_lengths.now) result out.old out.new }
{
    let d = or_tell!(segments(lengths));
    let other = or_tell!(segments(other_lengths));
    told_over::<bool>(append_segments_over(a, &d, b, &other, out))
}

/// A byte that is a flag passes if it is true.
struct IsTrue;

impl Single<u8, bool> for IsTrue {
    ghost value = { flag_of };

    fn apply(byte: u8) -> bool {
        flag_of(byte)
    }
}

/// The place of the first true flag, or -1.
#[unsafe(no_mangle)]
pub extern "C" fn cvl_proved_first_true(flags: &[u8], out: &mut i32) -> CvlStatus
    ensures { Told (in_limit flags.now (Ok (first_by flag_of flags.now))) result out.old out.new }
{
    or_tell!(check_limit(flags));
    told_one(Ok(first_that::<u8, IsTrue>(flags)), out)
}

/// The place of the first true flag of each segment, counted from its start, or -1.
#[unsafe(no_mangle)]
pub extern "C" fn cvl_proved_seg_first_true(
    flags: &[u8],
    lengths: &[i32],
    out: &mut [i32],
) -> CvlStatus
    ensures { RoomTold (by_segments lengths.now (each_of (first_by flag_of) flags.now)) result out.old out.new }
{
    let d = or_tell!(segments(lengths));
    told_over::<i32>(seg_first_that_over::<u8, IsTrue>(flags, &d, out))
}

/// The sum of each segment in 64 bits, where it always fits.
#[unsafe(no_mangle)]
pub extern "C" fn cvl_proved_seg_exact_sums(
    a: &[i32],
    lengths: &[i32],
    out: &mut [i64],
) -> CvlStatus
    ensures { RoomTold (by_segments lengths.now (each_of total_of a.now)) result out.old out.new }
{
    let d = or_tell!(segments(lengths));
    told_over::<i64>(seg_exact_sums_over(a, &d, out))
}
