//! What is made once between two steps of a call in parts, of what its parts told: only `bindings/c/steps.c` calls these.

ghost use Rattle.std.specs.Prelude.{◌≡◌, Ok, length};
ghost use Rattle.c_calls.specs.Told.{RoomTold, Told};
ghost use Rattle.part_records.specs.Carries.{carried_total_of, carries_of};
ghost use Rattle.part_records.specs.Places.{fitted, layout, layout_by, layout_or};
ghost use Rattle.part_records.specs.Totals.{total_within};

use c_calls::status::{CvlStatus, told_one, told_over};
use part_records::{carried_total, carries, part_places, part_total};

/// What stands before each part of a checked scan: the sum of those before it, in 64 bits.
#[unsafe(no_mangle)]
pub extern "C" fn cvl_proved_carries(sums: &[i64], out: &mut [i64]) -> CvlStatus
    ensures { RoomTold (Ok (carries_of sums.now)) result out.old out.new }
{
    told_over::<i64>(carries(sums, out))
}

/// What the sums of all parts of a checked reduce add up to, if it fits 32 bits.
#[unsafe(no_mangle)]
pub extern "C" fn cvl_proved_carried_total(sums: &[i64], out: &mut i32) -> CvlStatus
    ensures { Told (carried_total_of sums.now) result out.old out.new }
{
    told_one(carried_total(sums), out)
}

/// Where the elements of each part of a pack go, at last where they end, and how many they are. `LengthMismatch`, without a
/// place, if these are more than `room`, the places of the room.
#[unsafe(no_mangle)]
pub extern "C" fn cvl_proved_part_places(
    counts: &[i32],
    room: usize,
    out: &mut [usize],
    count: &mut usize,
) -> CvlStatus
    ensures answer { Told (fitted room (layout_by (length out.old) counts.now)) result tt tt }
    ensures told { layout out.new count.new ≡ layout_or (layout out.old count.old) (layout_by (length out.old) counts.now) }
{
    told_one(part_places(counts, room, out, count), &mut ())
}

/// What the lengths of all parts add up to, if a vector may be so long.
#[unsafe(no_mangle)]
pub extern "C" fn cvl_proved_part_total(sizes: &[usize], total: &mut usize) -> CvlStatus
    ensures { Told (total_within sizes.now) result total.old total.new }
{
    told_one(part_total(sizes), total)
}
