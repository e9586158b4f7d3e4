//! Runs of equal neighbours of segmented vectors in parts, which are cut at any places: only `bindings/c/steps.c` calls these. A
//! vector without segments is one segment.
//!
//! The first `head` elements of a part go on from a segment that began before it; the others are those of segments with these
//! lengths, the last of which may be longer than the part. A part has the runs that begin in it, each as far as the part goes.

ghost use Rattle.std.specs.Prelude.{◌≡◌, ◌+◌, length};
ghost use Rattle.c_calls.specs.Told.{FrontTold, RoomTold, Told, front_of};
ghost use Rattle.cvl_base.specs.Integers.{is_unequal};
ghost use Rattle.cvl_c.specs.Runs.{flags_differ};
ghost use Rattle.run_parts.specs.Calls.{part_run_counts_by, part_runs_by, run_fronts_by};
ghost use Rattle.run_parts.specs.Places.{run_layout, run_layout_by, run_layout_or, runs_fitted};
ghost use Rattle.run_parts.specs.Puts.{put_lengths_of, put_starts_of};
ghost use Rattle.run_parts.specs.Runs.{begin_or, run_lengths_of};

use crate::runs::FlagsDiffer;
use c_calls::status::{CvlStatus, told_one, told_over};
use cvl_base::comparisons::Unequal;
use run_parts::{
    part_run_counts, part_run_fronts, part_run_lengths, put_run_lengths, put_run_starts, run_places,
};

/// The length of each run of equal integers that begins in a part of `a`, which has as many elements from place `from` on as
/// `own` has places. `count` is how many these runs are, and `begin` where the first of them begins, or where the part ends.
#[unsafe(no_mangle)]
pub extern "C" fn cvl_proved_part_run_lengths_int(
    from: usize,
    head: usize,
    a: &[i32],
    lengths: &[i32],
    own: &mut [i32],
    begin: &mut usize,
    count: &mut usize,
) -> CvlStatus
    ensures lengths { FrontTold (run_lengths_of (part_runs_by is_unequal from (length own.old) head lengths.now a.now))
        result (front_of own.old count.old) (front_of own.new count.new) }
    ensures begin { begin.new
        ≡ begin_or begin.old (from + length own.old) (part_runs_by is_unequal from (length own.old) head lengths.now a.now) }
{
    told_over::<i32>(part_run_lengths::<i32, Unequal>(from, head, a, lengths, own, begin, count))
}

/// The same for runs of equal booleans, which come as bytes.
#[unsafe(no_mangle)]
pub extern "C" fn cvl_proved_part_run_lengths_bool(
    from: usize,
    head: usize,
    a: &[u8],
    lengths: &[i32],
    own: &mut [i32],
    begin: &mut usize,
    count: &mut usize,
) -> CvlStatus
    ensures lengths { FrontTold (run_lengths_of (part_runs_by flags_differ from (length own.old) head lengths.now a.now))
        result (front_of own.old count.old) (front_of own.new count.new) }
    ensures begin { begin.new
        ≡ begin_or begin.old (from + length own.old) (part_runs_by flags_differ from (length own.old) head lengths.now a.now) }
{
    told_over::<i32>(part_run_lengths::<u8, FlagsDiffer>(from, head, a, lengths, own, begin, count))
}

/// Where the runs of each part go in one room, at last where they end, and how many they are; and how many elements are behind
/// each part up to where the next run begins. `LengthMismatch`, without a place, if there are more runs than `room`, the
/// places of the room.
#[unsafe(no_mangle)]
pub extern "C" fn cvl_proved_run_places(
    counts: &[usize],
    begins: &[usize],
    from: &[usize],
    room: usize,
    places: &mut [usize],
    behinds: &mut [usize],
    total: &mut usize,
) -> CvlStatus
    ensures answer { Told (runs_fitted room
        (run_layout_by (length places.old) (length behinds.old) counts.now begins.now from.now)) result tt tt }
    ensures told { run_layout places.new total.new behinds.new
        ≡ run_layout_or (run_layout places.old total.old behinds.old)
        (run_layout_by (length places.old) (length behinds.old) counts.now begins.now from.now) }
{
    told_one(
        run_places(counts, begins, from, room, places, behinds, total),
        &mut (),
    )
}

/// The lengths of the runs of a part in its range of the room; the last has `behind` elements more in later parts.
#[unsafe(no_mangle)]
pub extern "C" fn cvl_proved_part_put_run_lengths(
    behind: usize,
    own: &[i32],
    out: &mut [i32],
) -> CvlStatus
    ensures { Told (put_lengths_of behind (length out.old) own.now) result out.old out.new }
{
    told_over::<i32>(put_run_lengths(behind, own, out))
}

/// The places where the runs of a part begin, of which `own` has the lengths, in its range of the room; the first begins at
/// `begin`.
#[unsafe(no_mangle)]
pub extern "C" fn cvl_proved_part_put_run_starts(
    begin: usize,
    own: &[i32],
    out: &mut [i32],
) -> CvlStatus
    ensures { Told (put_starts_of begin (length out.old) own.now) result out.old out.new }
{
    told_over::<i32>(put_run_starts(begin, own, out))
}

/// How many runs of equal integers begin among the `head` integers of `a` from place `from` on.
#[unsafe(no_mangle)]
pub extern "C" fn cvl_proved_part_run_fronts_int(
    from: usize,
    head: usize,
    a: &[i32],
    out: &mut i32,
) -> CvlStatus
    ensures { Told (run_fronts_by is_unequal from head a.now) result out.old out.new }
{
    told_one(part_run_fronts::<i32, Unequal>(from, head, a), out)
}

/// The same for runs of equal booleans, which come as bytes.
#[unsafe(no_mangle)]
pub extern "C" fn cvl_proved_part_run_fronts_bool(
    from: usize,
    head: usize,
    a: &[u8],
    out: &mut i32,
) -> CvlStatus
    ensures { Told (run_fronts_by flags_differ from head a.now) result out.old out.new }
{
    told_one(part_run_fronts::<u8, FlagsDiffer>(from, head, a), out)
}

/// The number of runs of equal integers of each segment that starts in a part, `a`. `behind` is how many runs of the last one
/// begin behind the part.
#[unsafe(no_mangle)]
pub extern "C" fn cvl_proved_part_run_counts_int(
    behind: i32,
    head: usize,
    lengths: &[i32],
    a: &[i32],
    out: &mut [i32],
) -> CvlStatus
    ensures { RoomTold (part_run_counts_by is_unequal behind head lengths.now a.now) result out.old out.new }
{
    told_over::<i32>(part_run_counts::<i32, Unequal>(behind, head, lengths, a, out))
}

/// The same for runs of equal booleans, which come as bytes.
#[unsafe(no_mangle)]
pub extern "C" fn cvl_proved_part_run_counts_bool(
    behind: i32,
    head: usize,
    lengths: &[i32],
    a: &[u8],
    out: &mut [i32],
) -> CvlStatus
    ensures { RoomTold (part_run_counts_by flags_differ behind head lengths.now a.now) result out.old out.new }
{
    told_over::<i32>(part_run_counts::<u8, FlagsDiffer>(behind, head, lengths, a, out))
}
