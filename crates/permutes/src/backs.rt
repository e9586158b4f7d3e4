//! The back permute.

ghost use Rattle.std.specs.Prelude.{◌≡◌, ◌≤◌, IfOk, length, vec_len};
ghost use Rattle.cvl_base.specs.Gives.{Gives};
ghost use Rattle.cvl_base.specs.Limits.{most_elements};
ghost use Rattle.cvl_base.specs.Permutes.{back_of};

use crew::Gate;
use cvl_base::{Config, Memory, Refused};
use permute_races::{check_indices_raced, permute_pace};
use permute_walks::{ElementsTaken, take_in_runs, take_nothing};
use sharing::threads_writing;
use std::thread::Threads;

/// The source's element at each index, `d[k] = s[i[k]]`: `bck_puz` and `bck_pub`.
///
/// The result is as long as the index. An index that is no place of the source is `IndexOutOfRange` at its place; an index may
/// repeat. Source: CVL's back permute.
///
/// Workers who race for the first bad index pass `gate` at `Claimed` and `Finished` of each tile.
pub fn back<T: Copy + Send + Sync, R: Threads + Sync, A: Memory, G: Gate>(
    rt: &R,
    alloc: A,
    config: Config,
    source: &[T],
    index: &[i32],
    gate: &G,
) -> Result<Vec<T, A>, Refused>
    requires in_limit { length index.now ≤ most_elements }
    ensures values { Gives (λ v. v.items) result (back_of source.now index.now) }
    ensures as_long { IfOk result (λ v. vec_len v ≡ length index.now) }
{
    if let Some(pace) = permute_pace(config, index.len(), source.len()) {
        check_indices_raced(rt, alloc, pace, index, source.len(), gate)?;
    }
    let Some(other) = source.first() else {
        return take_nothing(alloc, index.len());
    };
    let elements = ElementsTaken {
        source,
        index,
        other: *other,
    };
    let threads = threads_writing(config, index.len());
    take_in_runs(rt, alloc, threads, &elements, index.len())
}
