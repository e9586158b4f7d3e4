//! Permutes of each segment, by an index of at most 2,147,483,647 elements. Segments are given as lengths.

ghost use Rattle.c_calls.specs.Told.{RoomToldOr};
ghost use Rattle.cvl_c.specs.ByLengths.{back_by_lengths, default_by_lengths, select_by_lengths, simple_by_lengths};

use c_calls::checks::{check_limit, descriptor, segments};
use c_calls::or_tell;
use c_calls::status::{CvlStatus, told_over, told_over_or};
use segmented_permutes::{seg_back_over, seg_default_into_over, seg_select_over, seg_simple_over};
use std::alloc::Global;

/// Each integer at its index in its segment: `smp_pez`.
#[unsafe(no_mangle)]
pub extern "C" fn cvl_proved_seg_permute_int(
    alloc: Global,
    source: &[i32],
    index: &[i32],
    lengths: &[i32],
    out: &mut [i32],
) -> CvlStatus
    ensures { RoomToldOr (simple_by_lengths source.now index.now lengths.now) result out.old out.new }
{
    let d = or_tell!(segments(lengths));
    or_tell!(check_limit(index));
    told_over_or::<i32>(seg_simple_over(alloc, source, index, &d, out))
}

/// Each boolean at its index in its segment: `smp_peb`.
#[unsafe(no_mangle)]
pub extern "C" fn cvl_proved_seg_permute_bool(
    alloc: Global,
    source: &[bool],
    index: &[i32],
    lengths: &[i32],
    out: &mut [bool],
) -> CvlStatus
    ensures { RoomToldOr (simple_by_lengths source.now index.now lengths.now) result out.old out.new }
{
    let d = or_tell!(segments(lengths));
    or_tell!(check_limit(index));
    told_over_or::<bool>(seg_simple_over(alloc, source, index, &d, out))
}

/// Each integer whose flag is true, at its index in its segment of the result: `sel_pez`.
#[unsafe(no_mangle)]
pub extern "C" fn cvl_proved_seg_select_permute_int(
    alloc: Global,
    source: &[i32],
    index: &[i32],
    flags: &[bool],
    lengths: &[i32],
    out: &mut [i32],
) -> CvlStatus
    ensures { RoomToldOr (select_by_lengths source.now index.now flags.now lengths.now) result out.old out.new }
{
    let d = or_tell!(descriptor(alloc, lengths));
    or_tell!(check_limit(index));
    told_over_or::<i32>(seg_select_over(alloc, source, index, flags, &d, out))
}

/// Each boolean whose flag is true, at its index in its segment of the result: `sel_peb`.
#[unsafe(no_mangle)]
pub extern "C" fn cvl_proved_seg_select_permute_bool(
    alloc: Global,
    source: &[bool],
    index: &[i32],
    flags: &[bool],
    lengths: &[i32],
    out: &mut [bool],
) -> CvlStatus
    ensures { RoomToldOr (select_by_lengths source.now index.now flags.now lengths.now) result out.old out.new }
{
    let d = or_tell!(descriptor(alloc, lengths));
    or_tell!(check_limit(index));
    told_over_or::<bool>(seg_select_over(alloc, source, index, flags, &d, out))
}

/// Each integer at its index in its segment of the defaults, and at a place that gets none its default: `def_pez`.
#[unsafe(no_mangle)]
pub extern "C" fn cvl_proved_seg_default_permute_int(
    alloc: Global,
    source: &[i32],
    index: &[i32],
    defaults: &[i32],
    lengths: &[i32],
    default_lengths: &[i32],
    out: &mut [i32],
) -> CvlStatus
    ensures { RoomToldOr (default_by_lengths source.now index.now defaults.now lengths.now default_lengths.now)
        result out.old out.new }
{
    let d = or_tell!(descriptor(alloc, lengths));
    let e = or_tell!(descriptor(alloc, default_lengths));
    or_tell!(check_limit(index));
    told_over_or::<i32>(seg_default_into_over(alloc, source, index, defaults, &d, &e, out))
}

/// Each boolean at its index in its segment of the defaults, and at a place that gets none its default: `def_peb`.
#[unsafe(no_mangle)]
pub extern "C" fn cvl_proved_seg_default_permute_bool(
    alloc: Global,
    source: &[bool],
    index: &[i32],
    defaults: &[bool],
    lengths: &[i32],
    default_lengths: &[i32],
    out: &mut [bool],
) -> CvlStatus
    ensures { RoomToldOr (default_by_lengths source.now index.now defaults.now lengths.now default_lengths.now)
        result out.old out.new }
{
    let d = or_tell!(descriptor(alloc, lengths));
    let e = or_tell!(descriptor(alloc, default_lengths));
    or_tell!(check_limit(index));
    told_over_or::<bool>(seg_default_into_over(alloc, source, index, defaults, &d, &e, out))
}

/// At each place the integer at that place's index in the same segment of the source: `bck_pez`.
#[unsafe(no_mangle)]
pub extern "C" fn cvl_proved_seg_back_permute_int(
    source: &[i32],
    index: &[i32],
    lengths: &[i32],
    index_lengths: &[i32],
    out: &mut [i32],
) -> CvlStatus
    ensures { RoomToldOr (back_by_lengths source.now index.now lengths.now index_lengths.now) result out.old out.new }
{
    let d = or_tell!(segments(lengths));
    let e = or_tell!(segments(index_lengths));
    or_tell!(check_limit(index));
    told_over::<i32>(seg_back_over(source, index, &d, &e, out))
}

/// At each place the boolean at that place's index in the same segment of the source: `bck_peb`.
#[unsafe(no_mangle)]
pub extern "C" fn cvl_proved_seg_back_permute_bool(
    source: &[bool],
    index: &[i32],
    lengths: &[i32],
    index_lengths: &[i32],
    out: &mut [bool],
) -> CvlStatus
    ensures { RoomToldOr (back_by_lengths source.now index.now lengths.now index_lengths.now) result out.old out.new }
{
    let d = or_tell!(segments(lengths));
    let e = or_tell!(segments(index_lengths));
    or_tell!(check_limit(index));
    told_over::<bool>(seg_back_over(source, index, &d, &e, out))
}
