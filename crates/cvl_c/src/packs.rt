//! Packs, of whole vectors and of segments, and how many elements they keep. Segments are given as lengths.

ghost use Rattle.cvl_base.specs.Packs.{pack_of};
ghost use Rattle.cvl_base.specs.SegmentedCalls.{counts_of, seg_pack_of};
ghost use Rattle.c_calls.specs.Calls.{by_segments, in_limit};
ghost use Rattle.flag_calls.specs.Flags.{flags_of};
ghost use Rattle.c_calls.specs.Told.{FrontTold, RoomTold, front_of};

use c_calls::packs::{count_each, pack, pack_each};
use c_calls::status::{CvlStatus, told_over};

/// The integers whose flag is true, in order: `pck_luz`.
#[unsafe(no_mangle)]
pub extern "C" fn cvl_proved_pack_int(
    values: &[i32],
    flags: &[bool],
    out: &mut [i32],
    count: &mut usize,
) -> CvlStatus
    ensures { FrontTold (in_limit flags.now (pack_of values.now flags.now))
        result (front_of out.old count.old) (front_of out.new count.new) }
{
    told_over::<i32>(pack(values, flags, out, count))
}

/// The booleans whose flag is true, in order: `pck_lub`.
#[unsafe(no_mangle)]
pub extern "C" fn cvl_proved_pack_bool(
    values: &[bool],
    flags: &[bool],
    out: &mut [bool],
    count: &mut usize,
) -> CvlStatus
    ensures { FrontTold (in_limit flags.now (pack_of values.now flags.now))
        result (front_of out.old count.old) (front_of out.new count.new) }
{
    told_over::<bool>(pack(values, flags, out, count))
}

/// The integers of each segment whose flag is true, in order, segment by segment: `pck_lez`.
#[unsafe(no_mangle)]
pub extern "C" fn cvl_proved_seg_pack_int(
    values: &[i32],
    flags: &[bool],
    lengths: &[i32],
    out: &mut [i32],
    count: &mut usize,
) -> CvlStatus
    ensures { FrontTold (by_segments lengths.now (seg_pack_of values.now flags.now))
        result (front_of out.old count.old) (front_of out.new count.new) }
{
    told_over::<i32>(pack_each(values, flags, lengths, out, count))
}

/// The booleans of each segment whose flag is true, in order, segment by segment: `pck_leb`.
#[unsafe(no_mangle)]
pub extern "C" fn cvl_proved_seg_pack_bool(
    values: &[bool],
    flags: &[bool],
    lengths: &[i32],
    out: &mut [bool],
    count: &mut usize,
) -> CvlStatus
    ensures { FrontTold (by_segments lengths.now (seg_pack_of values.now flags.now))
        result (front_of out.old count.old) (front_of out.new count.new) }
{
    told_over::<bool>(pack_each(values, flags, lengths, out, count))
}

/// The lengths of the segments that a pack of segments makes, with the empty ones: `pck_fov`.
#[unsafe(no_mangle)]
pub extern "C" fn cvl_proved_packed_lengths(
    flags: &[u8],
    lengths: &[i32],
    out: &mut [i32],
) -> CvlStatus
    ensures { RoomTold (by_segments lengths.now (counts_of (flags_of flags.now))) result out.old out.new }
{
    told_over::<i32>(count_each(flags, lengths, out))
}

/// The number of true flags of each segment: `cnt_leb`.
#[unsafe(no_mangle)]
pub extern "C" fn cvl_proved_seg_count(flags: &[u8], lengths: &[i32], out: &mut [i32]) -> CvlStatus
    ensures { RoomTold (by_segments lengths.now (counts_of (flags_of flags.now))) result out.old out.new }
{
    told_over::<i32>(count_each(flags, lengths, out))
}
