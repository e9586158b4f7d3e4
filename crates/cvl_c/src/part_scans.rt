//! Scans of segmented vectors in parts, which are cut at any places: only `bindings/c/steps.c` calls these.
//!
//! The first `head` elements of a part go on from a segment that began before it; then there are whole segments with these
//! lengths; and with what is left another segment begins.

ghost use Rattle.c_calls.specs.Told.{RoomTold, Told};
ghost use Rattle.segment_parts.specs.Calls.{bool_carries_by, int_carries_by, part_bool_scan_by, part_int_scan_by};

use c_calls::status::{CvlStatus, told_over};
use segment_parts::calls::{
    bool_carries, int_carries, part_bool_scan, part_bool_scan_in, part_int_scan, part_int_scan_in,
};

/// For each integer of a part those before it in its segment, joined by the operator; `before` stands before the first of them.
#[unsafe(no_mangle)]
pub extern "C" fn cvl_proved_part_int_scan(
    op: u32,
    before: i32,
    head: usize,
    lengths: &[i32],
    a: &[i32],
    out: &mut [i32],
) -> CvlStatus
    ensures { RoomTold (part_int_scan_by op before head lengths.now a.now) result out.old out.new }
{
    told_over::<i32>(part_int_scan(op, before, head, lengths, a, out))
}

/// `cvl_proved_part_int_scan` over `a`.
#[unsafe(no_mangle)]
pub extern "C" fn cvl_proved_part_int_scan_in(
    op: u32,
    before: i32,
    head: usize,
    lengths: &[i32],
    a: &mut [i32],
) -> CvlStatus
    ensures { Told (part_int_scan_by op before head lengths.now a.old) result a.old a.new }
{
    told_over::<i32>(part_int_scan_in(op, before, head, lengths, a))
}

/// For each boolean of a part those before it in its segment, joined by the operator; `before` stands before the first of them.
#[unsafe(no_mangle)]
pub extern "C" fn cvl_proved_part_bool_scan(
    op: u32,
    before: bool,
    head: usize,
    lengths: &[i32],
    a: &[bool],
    out: &mut [bool],
) -> CvlStatus
    ensures { RoomTold (part_bool_scan_by op before head lengths.now a.now) result out.old out.new }
{
    told_over::<bool>(part_bool_scan(op, before, head, lengths, a, out))
}

/// `cvl_proved_part_bool_scan` over `a`.
#[unsafe(no_mangle)]
pub extern "C" fn cvl_proved_part_bool_scan_in(
    op: u32,
    before: bool,
    head: usize,
    lengths: &[i32],
    a: &mut [bool],
) -> CvlStatus
    ensures { Told (part_bool_scan_by op before head lengths.now a.old) result a.old a.new }
{
    told_over::<bool>(part_bool_scan_in(op, before, head, lengths, a))
}

/// What stands before each part of integers. `starts` says of each part whether a segment starts in it, and `told` what its
/// integers since its last start join to, or all of them if none starts.
#[unsafe(no_mangle)]
pub extern "C" fn cvl_proved_int_carries(
    op: u32,
    starts: &[bool],
    told: &[i32],
    out: &mut [i32],
) -> CvlStatus
    ensures { RoomTold (int_carries_by op starts.now told.now) result out.old out.new }
{
    told_over::<i32>(int_carries(op, starts, told, out))
}

/// What stands before each part of booleans, as `cvl_proved_int_carries`.
#[unsafe(no_mangle)]
pub extern "C" fn cvl_proved_bool_carries(
    op: u32,
    starts: &[bool],
    told: &[bool],
    out: &mut [bool],
) -> CvlStatus
    ensures { RoomTold (bool_carries_by op starts.now told.now) result out.old out.new }
{
    told_over::<bool>(bool_carries(op, starts, told, out))
}
