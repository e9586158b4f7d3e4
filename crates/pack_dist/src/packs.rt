//! Packs: the elements whose flag is true, in order.

ghost use Rattle.std.specs.Prelude.{◌≡◌, ◌+◌, ◌-◌, ◌<◌, ◌≤◌, ◌++◌, IfOk, Ok, [], length, vec_len};
ghost use Rattle.cvl_base.specs.Gives.{Gives};
ghost use Rattle.cvl_base.specs.Limits.{most_places};
ghost use Rattle.cvl_base.specs.Packs.{count_of, pack_of};
ghost use Rattle.cvl_base.specs.Rooms.{OverwritesFront};
ghost use Rattle.fresh.specs.Places.{stretch};
ghost use Rattle.pack_dist.specs.Kept.{kept_of};

use crate::counts::counts_before;
use crate::kept_blocks::push_kept;
use crate::kept_tiles::{Kept, write_kept_tiles};
use crew::Gate;
use cvl_base::{Config, Fault, FaultNo, Memory, NoResources, Refused, check_agree, true_count};
use fresh::{Room, Run, fill_slice};
use std::thread::Threads;
use tile_scans::scan_pace;

/// The elements whose flag is true, in order: `pck_luz` and `pck_lub`.
///
/// There are at most 2,147,483,647 flags. `LengthMismatch`, without a place, if there aren't as many flags as elements. Source:
/// CVL's pack.
///
/// Workers who race pass `gate` at each point of their way through a tile of the flags.
pub fn pack<T: Copy + Send + Sync, R: Threads + Sync, A: Memory, G: Gate>(
    rt: &R,
    alloc: A,
    config: Config,
    values: &[T],
    flags: &[bool],
    gate: &G,
) -> Result<Vec<T, A>, Refused>
    requires few { length flags.now ≤ most_places }
    ensures values { Gives (λ v. v.items) result (pack_of values.now flags.now) }
    ensures no_longer { IfOk result (λ v. vec_len v ≤ length values.now) }
{
    check_agree(values.len(), flags.len())?;
    Ok(kept(rt, alloc, config, values, flags, gate)?)
}

/// [`pack`] to the front of the caller's room, on the calling thread. It takes no memory.
///
/// The count becomes the number of true flags. If the room is too short for that, the fault is `LengthMismatch`, without a place,
/// and the room is as before; otherwise the rest of the room is. After any other fault the count is as before, too.
pub fn pack_over<T: Copy>(
    values: &[T],
    flags: &[bool],
    out: &mut [T],
    count: &mut usize,
) -> Result<(), Fault>
    requires few { length flags.now ≤ most_places }
    ensures { OverwritesFront (pack_of values.now flags.now) result out.old out.new count.old count.new }
{
    check_agree(values.len(), flags.len())?;
    kept_over(values, flags, out, count)
}

/// The elements whose flag is true, of as many as there are flags. If workers race for the tiles of the flags, they find where
/// what is kept of each tile goes, and several threads then write it. The workers of that race pass the gate.
pub(crate) fn kept<T: Copy + Send + Sync, R: Threads + Sync, A: Memory, G: Gate>(
    rt: &R,
    alloc: A,
    config: Config,
    values: &[T],
    flags: &[bool],
    gate: &G,
) -> Result<Vec<T, A>, NoResources>
    requires few { length flags.now ≤ most_places }
    requires as_long { length values.now ≡ length flags.now }
    ensures values { IfOk result (λ v. v.items ≡ kept_of values.now flags.now) }
    ensures no_longer { IfOk result (λ v. vec_len v ≤ length values.now) }
{
    let Some(pace) = scan_pace(config, flags.len()) else {
        return kept_alone(alloc, values, flags);
    };
    let before = counts_before(rt, alloc, pace, flags, gate)?;
    let kept = Kept {
        values,
        flags,
        tile: pace.tile() as usize,
        before: &before,
    };
    write_kept_tiles(rt, alloc, pace.threads_writing(flags.len()), &kept)
}

/// The same on the calling thread, which first counts what is kept, and then asks for memory for only that.
fn kept_alone<T: Copy, A: Memory>(
    alloc: A,
    values: &[T],
    flags: &[bool],
) -> Result<Vec<T, A>, NoResources>
    requires few { length flags.now ≤ most_places }
    requires as_long { length values.now ≡ length flags.now }
    ensures values { IfOk result (λ v. v.items ≡ kept_of values.now flags.now) }
    ensures no_longer { IfOk result (λ v. vec_len v ≤ length values.now) }
{
    let (room, run) = Room::new(alloc, true_count(flags))?;
    let run = push_kept(run, values, flags);
    Ok(room.into_vec(run))
}

/// The elements whose flag is true, of as many as there are flags, at the front of a room, and their number as the count. It
/// needs no places: it counts the flags, and pushes what is kept in order.
pub(crate) fn kept_over<T: Copy>(
    values: &[T],
    flags: &[bool],
    out: &mut [T],
    count: &mut usize,
) -> Result<(), Fault>
    requires few { length flags.now ≤ most_places }
    requires as_long { length values.now ≡ length flags.now }
    ensures { OverwritesFront (Ok (kept_of values.now flags.now)) result out.old out.new count.old count.new }
{
    let kept = true_count(flags);
    *count = kept;
    if kept > out.len() {
        return Err(Fault::new(FaultNo::LengthMismatch));
    }
    let (front, _) = out.split_at_mut(kept);
    write_kept(values, flags, front);
    Ok(())
}

/// Writes the elements whose flag is true over a room of as many.
fn write_kept<T: Copy>(values: &[T], flags: &[bool], out: &mut [T])
    requires few { length flags.now ≤ most_places }
    requires as_long { length values.now ≡ length flags.now }
    requires fits { length out.old ≡ count_of flags.now }
    ensures { out.new ≡ kept_of values.now flags.now }
{
    fill_slice(
        out,
        |run: Run<T>| -> Run<T>
            requires { (run.items ≡ []) × (run.room ≡ count_of flags.now) × (length values.now ≡ length flags.now) }
            ensures { result ≡ stretch run.block run.first
                (run.items ++ kept_of values.entry.now flags.entry.now) (run.room - count_of flags.entry.now) }
        { push_kept(run, values, flags) },
    )
}
