//! Single elements of segments, and vectors of given segments. Segments are given as lengths.

ghost use Rattle.cvl_base.specs.Limits.{most_places};
ghost use Rattle.cvl_base.specs.SegmentedCalls.{seg_distribute_within, seg_extract_of, seg_index_within, seg_replace_of};
ghost use Rattle.c_calls.specs.Calls.{by_segments};
ghost use Rattle.flag_calls.specs.Flags.{made_flags};
ghost use Rattle.c_calls.specs.Told.{RoomTold, RoomToldOr};

use c_calls::checks::segments;
use c_calls::elements::extract_each_flag;
use c_calls::or_tell;
use c_calls::status::{CvlStatus, told, told_over};
use pack_dist::{seg_extract, seg_replace};
use segment_fills::{seg_distribute_over, seg_index_over};
use std::alloc::Global;

/// The integer at each segment's index: `ext_vez`.
#[unsafe(no_mangle)]
pub extern "C" fn cvl_proved_seg_extract_int(
    alloc: Global,
    vector: &[i32],
    index: &[i32],
    lengths: &[i32],
    out: &mut [i32],
) -> CvlStatus
    ensures { RoomToldOr (by_segments lengths.now (seg_extract_of vector.now index.now)) result out.old out.new }
{
    let d = or_tell!(segments(lengths));
    told(seg_extract(alloc, vector, index, &d), out)
}

/// The flag at each segment's index: `ext_veb`.
#[unsafe(no_mangle)]
pub extern "C" fn cvl_proved_seg_extract_bool(
    alloc: Global,
    vector: &[u8],
    index: &[i32],
    lengths: &[i32],
    out: &mut [u8],
) -> CvlStatus
    ensures { RoomToldOr (made_flags (by_segments lengths.now (seg_extract_of vector.now index.now))) result out.old out.new }
{
    told(extract_each_flag(alloc, vector, index, lengths), out)
}

/// The integers, with each segment's value at the segment's index: `rep_vez`.
#[unsafe(no_mangle)]
pub extern "C" fn cvl_proved_seg_replace_int(
    alloc: Global,
    vector: &[i32],
    index: &[i32],
    values: &[i32],
    lengths: &[i32],
    out: &mut [i32],
) -> CvlStatus
    ensures { RoomToldOr (by_segments lengths.now (seg_replace_of vector.now index.now values.now)) result out.old out.new }
{
    let d = or_tell!(segments(lengths));
    told(seg_replace(alloc, vector, index, values, &d), out)
}

/// The booleans, with each segment's value at the segment's index: `rep_veb`.
#[unsafe(no_mangle)]
pub extern "C" fn cvl_proved_seg_replace_bool(
    alloc: Global,
    vector: &[bool],
    index: &[i32],
    values: &[bool],
    lengths: &[i32],
    out: &mut [bool],
) -> CvlStatus
    ensures { RoomToldOr (by_segments lengths.now (seg_replace_of vector.now index.now values.now)) result out.old out.new }
{
    let d = or_tell!(segments(lengths));
    told(seg_replace(alloc, vector, index, values, &d), out)
}

/// Each segment's integer, copied as often as the segment is long: `dis_vez`.
#[unsafe(no_mangle)]
pub extern "C" fn cvl_proved_seg_distribute_int(
    values: &[i32],
    lengths: &[i32],
    out: &mut [i32],
) -> CvlStatus
    ensures { RoomTold (by_segments lengths.now (seg_distribute_within most_places values.now)) result out.old out.new }
{
    let d = or_tell!(segments(lengths));
    told_over::<i32>(seg_distribute_over(values, &d, out))
}

/// Each segment's boolean, copied as often as the segment is long: `dis_veb`.
#[unsafe(no_mangle)]
pub extern "C" fn cvl_proved_seg_distribute_bool(
    values: &[bool],
    lengths: &[i32],
    out: &mut [bool],
) -> CvlStatus
    ensures { RoomTold (by_segments lengths.now (seg_distribute_within most_places values.now)) result out.old out.new }
{
    let d = or_tell!(segments(lengths));
    told_over::<bool>(seg_distribute_over(values, &d, out))
}

/// For each segment the numbers from its init on, in steps of its stride: `ind_lez`.
#[unsafe(no_mangle)]
pub extern "C" fn cvl_proved_seg_index(
    inits: &[i32],
    strides: &[i32],
    lengths: &[i32],
    out: &mut [i32],
) -> CvlStatus
    ensures { RoomTold (by_segments lengths.now (seg_index_within most_places inits.now strides.now)) result out.old out.new }
{
    let d = or_tell!(segments(lengths));
    told_over::<i32>(seg_index_over(inits, strides, &d, out))
}
