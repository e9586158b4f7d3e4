//! Checked sums of segmented vectors in parts, which are cut at any places: only `bindings/c/steps.c` calls these.
//!
//! A part is cut as for `part_scans` and `part_reduces`. What stands before a part and what goes on behind it are sums in 64
//! bits. Without a room, which is checked last, a part's call only looks whether its sums fit 32 bits.

ghost use Rattle.c_calls.specs.Told.{RoomTold};
ghost use Rattle.segment_parts.specs.CheckedSums.{checked_part_reduce_by, checked_part_scan_by};
ghost use Rattle.segment_parts.specs.CheckedSums.{long_behinds_of, long_carries_of};

use c_calls::status::{CvlStatus, told_over};
use segment_parts::{long_behinds, long_carries, part_checked_reduce, part_checked_scan};

/// What stands before each part in 64 bits. `starts` says of each part whether a segment starts in it, and `told` the sum of
/// its integers since its last start, or of all of them if none starts.
#[unsafe(no_mangle)]
pub extern "C" fn cvl_proved_long_carries(
    starts: &[bool],
    told: &[i64],
    out: &mut [i64],
) -> CvlStatus
    ensures { RoomTold (long_carries_of starts.now told.now) result out.old out.new }
{
    told_over::<i64>(long_carries(starts, told, out))
}

/// For each integer of a part the sum of those before it in its segment, which never wraps; `before` stands before the first
/// of them.
#[unsafe(no_mangle)]
pub extern "C" fn cvl_proved_part_checked_scan(
    before: i64,
    head: usize,
    lengths: &[i32],
    a: &[i32],
    out: &mut [i32],
) -> CvlStatus
    ensures { RoomTold (checked_part_scan_by before head lengths.now a.now) result out.old out.new }
{
    told_over::<i32>(part_checked_scan(&before, head, lengths, a, out))
}

/// What goes on behind each part in 64 bits. `starts` says of each part whether a segment starts in it, and `told` the sum of
/// its integers before its first start, or of all of them if none starts.
#[unsafe(no_mangle)]
pub extern "C" fn cvl_proved_long_behinds(
    starts: &[bool],
    told: &[i64],
    out: &mut [i64],
) -> CvlStatus
    ensures { RoomTold (long_behinds_of starts.now told.now) result out.old out.new }
{
    told_over::<i64>(long_behinds(starts, told, out))
}

/// The sum of each segment that starts in a part, which never wraps; `behind` goes on behind the part and is added to the last
/// one.
#[unsafe(no_mangle)]
pub extern "C" fn cvl_proved_part_checked_reduce(
    behind: i64,
    head: usize,
    lengths: &[i32],
    a: &[i32],
    out: &mut [i32],
) -> CvlStatus
    ensures { RoomTold (checked_part_reduce_by behind head lengths.now a.now) result out.old out.new }
{
    told_over::<i32>(part_checked_reduce(&behind, head, lengths, a, out))
}
