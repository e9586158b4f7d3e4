//! Reduces and counts of segmented vectors in parts, which are cut at any places: only `bindings/c/steps.c` calls these.
//!
//! The first `head` elements of a part go on from a segment that began before it; the others are those of segments with these
//! lengths, the last of which may be longer than the part and is joined with `behind`, which is what goes on behind the part.

ghost use Rattle.c_calls.specs.Told.{RoomTold};
ghost use Rattle.segment_parts.specs.ReduceCalls.{bool_behinds_by, int_behinds_by};
ghost use Rattle.segment_parts.specs.ReduceCalls.{part_bool_reduce_by, part_count_of, part_int_reduce_by};

use c_calls::status::{CvlStatus, told_over};
use segment_parts::reduce_calls::{
    bool_behinds, int_behinds, part_bool_reduce, part_count, part_int_reduce,
};

/// What goes on behind each part of integers. `starts` says of each part whether a segment starts in it, and `told` what its
/// integers before its first start join to, or all of them if none starts.
#[unsafe(no_mangle)]
pub extern "C" fn cvl_proved_int_behinds(
    op: u32,
    starts: &[bool],
    told: &[i32],
    out: &mut [i32],
) -> CvlStatus
    ensures { RoomTold (int_behinds_by op starts.now told.now) result out.old out.new }
{
    told_over::<i32>(int_behinds(op, starts, told, out))
}

/// What goes on behind each part of booleans, as `cvl_proved_int_behinds`.
#[unsafe(no_mangle)]
pub extern "C" fn cvl_proved_bool_behinds(
    op: u32,
    starts: &[bool],
    told: &[bool],
    out: &mut [bool],
) -> CvlStatus
    ensures { RoomTold (bool_behinds_by op starts.now told.now) result out.old out.new }
{
    told_over::<bool>(bool_behinds(op, starts, told, out))
}

/// The integers of each segment that starts in a part, joined by the operator.
#[unsafe(no_mangle)]
pub extern "C" fn cvl_proved_part_int_reduce(
    op: u32,
    behind: i32,
    head: usize,
    lengths: &[i32],
    a: &[i32],
    out: &mut [i32],
) -> CvlStatus
    ensures { RoomTold (part_int_reduce_by op behind head lengths.now a.now) result out.old out.new }
{
    told_over::<i32>(part_int_reduce(op, behind, head, lengths, a, out))
}

/// The flags of each segment that starts in a part, joined by the operator.
#[unsafe(no_mangle)]
pub extern "C" fn cvl_proved_part_bool_reduce(
    op: u32,
    behind: bool,
    head: usize,
    lengths: &[i32],
    a: &[u8],
    out: &mut [bool],
) -> CvlStatus
    ensures { RoomTold (part_bool_reduce_by op behind head lengths.now a.now) result out.old out.new }
{
    told_over::<bool>(part_bool_reduce(op, behind, head, lengths, a, out))
}

/// The number of true flags of each segment that starts in a part.
#[unsafe(no_mangle)]
pub extern "C" fn cvl_proved_part_count(
    behind: i32,
    head: usize,
    lengths: &[i32],
    flags: &[u8],
    out: &mut [i32],
) -> CvlStatus
    ensures { RoomTold (part_count_of behind head lengths.now flags.now) result out.old out.new }
{
    told_over::<i32>(part_count(behind, head, lengths, flags, out))
}
