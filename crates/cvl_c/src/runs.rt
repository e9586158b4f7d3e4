//! Runs of equal neighbours, of whole vectors and of each segment: how long they are, where they begin, and how many there are.

ghost use Rattle.std.specs.Prelude.{Ok};
ghost use Rattle.c_calls.specs.Calls.{by_segments, in_limit};
ghost use Rattle.c_calls.specs.Told.{FrontTold, RoomTold, front_of};
ghost use Rattle.cvl_base.specs.Rooms.{OverwritesFront};
ghost use Rattle.cvl_c.specs.Runs.{flags_differ};
ghost use Rattle.cvl_base.specs.Integers.{is_unequal};
ghost use Rattle.run_lengths.specs.Runs.{its_length, its_start, run_count_of, run_numbers_of, seg_run_numbers_of};
ghost use Rattle.segment_values.specs.Values.{each_of};

use c_calls::checks::{check_limit, segments};
use c_calls::or_tell;
use c_calls::status::{CvlStatus, told_over};
use cvl_base::comparisons::Unequal;
use cvl_base::monoids::BoolXor;
use cvl_base::{Binary, Fault};
use flag_calls::flag_of;
use run_lengths::{
    Length, RunNumber, Start, run_numbers_over, seg_run_counts_over, seg_run_numbers_over,
};

/// Of two bytes one is true, and the other is not.
pub(crate) struct FlagsDiffer;

impl Binary<u8, bool> for FlagsDiffer {
    ghost value = { flags_differ };

    #[inline]
    fn apply(a: u8, b: u8) -> bool {
        BoolXor::apply(flag_of(a), flag_of(b))
    }
}

/// A number for each run, at the front of a room. `count` is how many runs there are.
fn runs<X: Copy, D: Binary<X, bool>, N: RunNumber>(
    a: &[X],
    out: &mut [i32],
    count: &mut usize,
) -> Result<(), Fault>
    ensures { OverwritesFront (in_limit a.now (Ok (run_numbers_of N.number D.value a.now)))
        result out.old out.new count.old count.new }
{
    check_limit(a)?;
    run_numbers_over::<X, D, N>(a, out, count)
}

/// The same of each segment, segment by segment.
fn runs_of_each<X: Copy, D: Binary<X, bool>, N: RunNumber>(
    a: &[X],
    lengths: &[i32],
    out: &mut [i32],
    count: &mut usize,
) -> Result<(), Fault>
    ensures { OverwritesFront (by_segments lengths.now (seg_run_numbers_of N.number D.value a.now))
        result out.old out.new count.old count.new }
{
    let d = segments(lengths)?;
    seg_run_numbers_over::<X, D, N>(a, &d, out, count)
}

/// The length of each run of equal integers, in order.
#[unsafe(no_mangle)]
pub extern "C" fn cvl_proved_run_lengths_int(
    a: &[i32],
    out: &mut [i32],
    count: &mut usize,
) -> CvlStatus
    ensures { FrontTold (in_limit a.now (Ok (run_numbers_of its_length is_unequal a.now)))
        result (front_of out.old count.old) (front_of out.new count.new) }
{
    told_over::<i32>(runs::<i32, Unequal, Length>(a, out, count))
}

/// The length of each run of equal booleans, in order.
#[unsafe(no_mangle)]
pub extern "C" fn cvl_proved_run_lengths_bool(
    a: &[u8],
    out: &mut [i32],
    count: &mut usize,
) -> CvlStatus
    ensures { FrontTold (in_limit a.now (Ok (run_numbers_of its_length flags_differ a.now)))
        result (front_of out.old count.old) (front_of out.new count.new) }
{
    told_over::<i32>(runs::<u8, FlagsDiffer, Length>(a, out, count))
}

/// The place where each run of equal integers begins, in order.
#[unsafe(no_mangle)]
pub extern "C" fn cvl_proved_run_starts_int(
    a: &[i32],
    out: &mut [i32],
    count: &mut usize,
) -> CvlStatus
    ensures { FrontTold (in_limit a.now (Ok (run_numbers_of its_start is_unequal a.now)))
        result (front_of out.old count.old) (front_of out.new count.new) }
{
    told_over::<i32>(runs::<i32, Unequal, Start>(a, out, count))
}

/// The place where each run of equal booleans begins, in order.
#[unsafe(no_mangle)]
pub extern "C" fn cvl_proved_run_starts_bool(
    a: &[u8],
    out: &mut [i32],
    count: &mut usize,
) -> CvlStatus
    ensures { FrontTold (in_limit a.now (Ok (run_numbers_of its_start flags_differ a.now)))
        result (front_of out.old count.old) (front_of out.new count.new) }
{
    told_over::<i32>(runs::<u8, FlagsDiffer, Start>(a, out, count))
}

/// The length of each run of equal integers of each segment, segment by segment.
#[unsafe(no_mangle)]
pub extern "C" fn cvl_proved_seg_run_lengths_int(
    a: &[i32],
    lengths: &[i32],
    out: &mut [i32],
    count: &mut usize,
) -> CvlStatus
    ensures { FrontTold (by_segments lengths.now (seg_run_numbers_of its_length is_unequal a.now))
        result (front_of out.old count.old) (front_of out.new count.new) }
{
    told_over::<i32>(runs_of_each::<i32, Unequal, Length>(a, lengths, out, count))
}

/// The length of each run of equal booleans of each segment, segment by segment.
#[unsafe(no_mangle)]
pub extern "C" fn cvl_proved_seg_run_lengths_bool(
    a: &[u8],
    lengths: &[i32],
    out: &mut [i32],
    count: &mut usize,
) -> CvlStatus
    ensures { FrontTold (by_segments lengths.now (seg_run_numbers_of its_length flags_differ a.now))
        result (front_of out.old count.old) (front_of out.new count.new) }
{
    told_over::<i32>(runs_of_each::<u8, FlagsDiffer, Length>(a, lengths, out, count))
}

/// The place where each run of equal integers of each segment begins, segment by segment.
#[unsafe(no_mangle)]
pub extern "C" fn cvl_proved_seg_run_starts_int(
    a: &[i32],
    lengths: &[i32],
    out: &mut [i32],
    count: &mut usize,
) -> CvlStatus
    ensures { FrontTold (by_segments lengths.now (seg_run_numbers_of its_start is_unequal a.now))
        result (front_of out.old count.old) (front_of out.new count.new) }
{
    told_over::<i32>(runs_of_each::<i32, Unequal, Start>(a, lengths, out, count))
}

/// The place where each run of equal booleans of each segment begins, segment by segment.
#[unsafe(no_mangle)]
pub extern "C" fn cvl_proved_seg_run_starts_bool(
    a: &[u8],
    lengths: &[i32],
    out: &mut [i32],
    count: &mut usize,
) -> CvlStatus
    ensures { FrontTold (by_segments lengths.now (seg_run_numbers_of its_start flags_differ a.now))
        result (front_of out.old count.old) (front_of out.new count.new) }
{
    told_over::<i32>(runs_of_each::<u8, FlagsDiffer, Start>(a, lengths, out, count))
}

/// The number of runs of equal integers of each segment.
#[unsafe(no_mangle)]
pub extern "C" fn cvl_proved_seg_run_counts_int(
    a: &[i32],
    lengths: &[i32],
    out: &mut [i32],
) -> CvlStatus
    ensures { RoomTold (by_segments lengths.now (each_of (run_count_of is_unequal) a.now)) result out.old out.new }
{
    let d = or_tell!(segments(lengths));
    told_over::<i32>(seg_run_counts_over::<i32, Unequal>(a, &d, out))
}

/// The number of runs of equal booleans of each segment.
#[unsafe(no_mangle)]
pub extern "C" fn cvl_proved_seg_run_counts_bool(
    a: &[u8],
    lengths: &[i32],
    out: &mut [i32],
) -> CvlStatus
    ensures { RoomTold (by_segments lengths.now (each_of (run_count_of flags_differ) a.now)) result out.old out.new }
{
    let d = or_tell!(segments(lengths));
    told_over::<i32>(seg_run_counts_over::<u8, FlagsDiffer>(a, &d, out))
}
