//! Copies of vectors.

ghost use Rattle.std.specs.Prelude.{◌≡◌, IfOk, length, vec_len};

use crate::shared::rayon_threads;
use cvl_base::{Memory, NoResources};
use element_walks::Copied;
use fresh::write_in_runs_by_rayon;
use std::mem::size_of_val;
use std::thread::Threads;

/// A copy of a vector. One thread moves the bytes at once, which is faster than a loop over the elements.
pub(crate) fn copied<X: Copy + Send + Sync, R: Threads + Sync, A: Memory>(
    rt: &R,
    alloc: A,
    a: &[X],
) -> Result<Vec<X, A>, NoResources>
    ensures values { IfOk result (λ v. v.items ≡ a.now) }
    ensures as_long { IfOk result (λ v. vec_len v ≡ length a.now) }
{
    let threads = rayon_threads(rt, size_of_val(a));
    if threads < 2 {
        return Ok(Vec::from_slice(alloc, a)?);
    }
    let writer = Copied { elements: a };
    Ok(write_in_runs_by_rayon(rt, alloc, threads, &writer, a.len())?)
}
