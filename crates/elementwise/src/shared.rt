//! Whether the threads of `rayon` share a call, by how much it reads.

ghost use Rattle.std.specs.Prelude.{◌≡◌, ◌≤◌, IfOk, length, vec_len};

use cvl_base::{Memory, NoResources};
use fresh::{Writer, write_in_runs_by_rayon};
use rayon::current_num_threads;
use sharing::{LEAST_SHARED, threads_among};
use std::thread::Threads;

/// How many bytes a sum of two integer vectors reads for each element. `sharing` counts such elements.
const READ_BY_A_SUM: usize = 8;

/// The writer's items as a vector. Long vectors are shared among threads, by how many bytes the writer reads for them.
pub(crate) fn written_by_rayon<T: Send + Drop, R: Threads + Sync, A: Memory, W: Writer<T> + Sync>(
    rt: &R,
    alloc: A,
    writer: &W,
    items: usize,
    read: usize,
) -> Result<Vec<T, A>, NoResources>
    requires { items ≡ length (W.whole writer.now) }
    ensures values { IfOk result (λ v. v.items ≡ W.whole writer.now) }
    ensures as_long { IfOk result (λ v. vec_len v ≡ items) }
{
    let threads = rayon_threads(rt, read);
    Ok(write_in_runs_by_rayon(rt, alloc, threads, writer, items)?)
}

/// How many threads of `rayon` share a call that reads this many bytes: at most as many as there are processors, since such a
/// call has no configuration.
pub(crate) fn rayon_threads(rt: &impl Threads, read: usize) -> usize
    ensures { 1 ≤ result }
{
    let elements = read / READ_BY_A_SUM;
    // to ask for the processors takes longer than many a short vector
    if elements < LEAST_SHARED {
        return 1;
    }
    let processors = current_num_threads(rt).min(u32::MAX as usize);
    threads_among(processors as u32, elements) as usize
}
