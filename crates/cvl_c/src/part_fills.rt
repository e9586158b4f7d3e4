//! Copies by segments, and numbers, in parts of a vector, which is cut at any places: only `bindings/c/steps.c` calls these.
//!
//! By segments the first `head` elements of a part go on from a segment that began before it, the open one; the others are those
//! of segments with these lengths, the last of which may be longer than the part. `out` is the part's range of the result.

ghost use Rattle.std.specs.Prelude.{length};
ghost use Rattle.segment_fills.specs.Calls.{part_distribute_by, part_index_by};
ghost use Rattle.segment_fills.specs.Numbers.{numbers_after_of};
ghost use Rattle.c_calls.specs.Told.{Told};

use c_calls::status::{CvlStatus, told_over};
use segment_fills::calls::{part_distribute, part_index};
use segment_fills::numbers_after_over;

/// The integer of the part's open segment, if `head` is not 0, and that of each segment that starts in the part, as often as the
/// part has elements of the segment.
#[unsafe(no_mangle)]
pub extern "C" fn cvl_proved_part_distribute_int(
    head: usize,
    lengths: &[i32],
    values: &[i32],
    out: &mut [i32],
) -> CvlStatus
    ensures { Told (part_distribute_by head lengths.now values.now out.old) result out.old out.new }
{
    told_over::<i32>(part_distribute(head, lengths, values, out))
}

/// The booleans of the part's segments, as `cvl_proved_part_distribute_int`.
#[unsafe(no_mangle)]
pub extern "C" fn cvl_proved_part_distribute_bool(
    head: usize,
    lengths: &[i32],
    values: &[bool],
    out: &mut [bool],
) -> CvlStatus
    ensures { Told (part_distribute_by head lengths.now values.now out.old) result out.old out.new }
{
    told_over::<bool>(part_distribute(head, lengths, values, out))
}

/// For each of the part's segments the numbers from its init on, in steps of its stride; `done` of those of the open segment
/// stand before the part.
#[unsafe(no_mangle)]
pub extern "C" fn cvl_proved_part_index(
    done: usize,
    head: usize,
    lengths: &[i32],
    inits: &[i32],
    strides: &[i32],
    out: &mut [i32],
) -> CvlStatus
    ensures { Told (part_index_by done head lengths.now inits.now strides.now out.old) result out.old out.new }
{
    told_over::<i32>(part_index(done, head, lengths, inits, strides, out))
}

/// The numbers of an index behind its first `before`, which stand in the parts before.
#[unsafe(no_mangle)]
pub extern "C" fn cvl_proved_part_numbers(
    before: usize,
    init: i32,
    stride: i32,
    out: &mut [i32],
) -> CvlStatus
    ensures { Told (numbers_after_of before init stride (length out.old)) result out.old out.new }
{
    told_over::<i32>(numbers_after_over(before, init, stride, out))
}
