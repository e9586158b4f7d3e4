//! Permutes of whole vectors, by an index of at most 2,147,483,647 elements.

ghost use Rattle.cvl_base.specs.Permutes.{back_of, default_of, select_of, simple_of};
ghost use Rattle.c_calls.specs.Calls.{in_limit};
ghost use Rattle.c_calls.specs.Told.{RoomTold, RoomToldOr};

use c_calls::flat_permutes::{back, default_into, select, simple};
use c_calls::status::{CvlStatus, told_over, told_over_or};
use std::alloc::Global;

/// Each integer at its index: `smp_puz`.
#[unsafe(no_mangle)]
pub extern "C" fn cvl_proved_permute_int(
    alloc: Global,
    source: &[i32],
    index: &[i32],
    out: &mut [i32],
) -> CvlStatus
    ensures { RoomToldOr (in_limit index.now (simple_of source.now index.now)) result out.old out.new }
{
    told_over_or::<i32>(simple(alloc, source, index, out))
}

/// Each boolean at its index: `smp_pub`.
#[unsafe(no_mangle)]
pub extern "C" fn cvl_proved_permute_bool(
    alloc: Global,
    source: &[bool],
    index: &[i32],
    out: &mut [bool],
) -> CvlStatus
    ensures { RoomToldOr (in_limit index.now (simple_of source.now index.now)) result out.old out.new }
{
    told_over_or::<bool>(simple(alloc, source, index, out))
}

/// Each integer whose flag is true, at its index: `sel_puz`.
#[unsafe(no_mangle)]
pub extern "C" fn cvl_proved_select_permute_int(
    alloc: Global,
    source: &[i32],
    index: &[i32],
    flags: &[bool],
    out: &mut [i32],
) -> CvlStatus
    ensures { RoomToldOr (in_limit index.now (select_of source.now index.now flags.now)) result out.old out.new }
{
    told_over_or::<i32>(select(alloc, source, index, flags, out))
}

/// Each boolean whose flag is true, at its index: `sel_pub`.
#[unsafe(no_mangle)]
pub extern "C" fn cvl_proved_select_permute_bool(
    alloc: Global,
    source: &[bool],
    index: &[i32],
    flags: &[bool],
    out: &mut [bool],
) -> CvlStatus
    ensures { RoomToldOr (in_limit index.now (select_of source.now index.now flags.now)) result out.old out.new }
{
    told_over_or::<bool>(select(alloc, source, index, flags, out))
}

/// Each integer at its index, and at a place that gets none its default: `def_puz`.
#[unsafe(no_mangle)]
pub extern "C" fn cvl_proved_default_permute_int(
    alloc: Global,
    source: &[i32],
    index: &[i32],
    defaults: &[i32],
    out: &mut [i32],
) -> CvlStatus
    ensures { RoomToldOr (in_limit index.now (default_of source.now index.now defaults.now)) result out.old out.new }
{
    told_over_or::<i32>(default_into(alloc, source, index, defaults, out))
}

/// Each boolean at its index, and at a place that gets none its default: `def_pub`.
#[unsafe(no_mangle)]
pub extern "C" fn cvl_proved_default_permute_bool(
    alloc: Global,
    source: &[bool],
    index: &[i32],
    defaults: &[bool],
    out: &mut [bool],
) -> CvlStatus
    ensures { RoomToldOr (in_limit index.now (default_of source.now index.now defaults.now)) result out.old out.new }
{
    told_over_or::<bool>(default_into(alloc, source, index, defaults, out))
}

/// At each place the integer at that place's index: `bck_puz`.
#[unsafe(no_mangle)]
pub extern "C" fn cvl_proved_back_permute_int(
    source: &[i32],
    index: &[i32],
    out: &mut [i32],
) -> CvlStatus
    ensures { RoomTold (in_limit index.now (back_of source.now index.now)) result out.old out.new }
{
    told_over::<i32>(back(source, index, out))
}

/// At each place the boolean at that place's index: `bck_pub`.
#[unsafe(no_mangle)]
pub extern "C" fn cvl_proved_back_permute_bool(
    source: &[bool],
    index: &[i32],
    out: &mut [bool],
) -> CvlStatus
    ensures { RoomTold (in_limit index.now (back_of source.now index.now)) result out.old out.new }
{
    told_over::<bool>(back(source, index, out))
}
