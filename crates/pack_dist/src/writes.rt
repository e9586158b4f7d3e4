//! The items of a writer, as a vector, or in the caller's room.

ghost use Rattle.std.specs.Prelude.{◌≡◌, ◌≤◌, IfOk, Ok, length, vec_len};
ghost use Rattle.cvl_base.specs.Limits.{most_places};
ghost use Rattle.cvl_base.specs.Rooms.{Overwrites, in_room};

use cvl_base::{Config, Fault, Memory, NoResources, check_agree};
use fresh::{Writer, write_in_runs, write_over};
use sharing::threads_writing;
use std::thread::Threads;

/// The writer's items as a vector, by as many threads as the configuration has for a call that reads `read` elements.
pub(crate) fn write_vector<T: Copy + Send, R: Threads + Sync, A: Memory, W: Writer<T> + Sync>(
    rt: &R,
    alloc: A,
    config: Config,
    writer: &W,
    items: usize,
    read: usize,
) -> Result<Vec<T, A>, NoResources>
    requires { items ≡ length (W.whole writer.now) }
    ensures values { IfOk result (λ v. v.items ≡ W.whole writer.now) }
    ensures as_long { IfOk result (λ v. vec_len v ≡ items) }
{
    let threads = threads_writing(config, read);
    Ok(write_in_runs(rt, alloc, threads, writer, items)?)
}

/// Writes the writer's items into the caller's room, on the calling thread: `LengthMismatch`, without a place, if the room is not
/// as long. It takes no memory.
pub(crate) fn write_room<T: Copy, W: Writer<T>>(
    writer: &W,
    items: usize,
    out: &mut [T],
) -> Result<(), Fault>
    requires items { items ≡ length (W.whole writer.now) }
    requires few { items ≤ most_places }
    ensures { Overwrites (in_room (length out.old) (Ok (W.whole writer.now))) result out.old out.new }
{
    check_agree(items, out.len())?;
    write_over(out, writer);
    Ok(())
}
