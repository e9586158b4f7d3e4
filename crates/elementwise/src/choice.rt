//! The choice between two vectors by a vector of flags.

ghost use Rattle.std.specs.Prelude.{◌≡◌, IfOk, length, vec_len};
ghost use Rattle.cvl_base.specs.Elementwise.{choose_of};
ghost use Rattle.cvl_base.specs.Gives.{Gives};

use crate::shared::written_by_rayon;
use cvl_base::{Config, Memory, Refused, check_agree};
use element_walks::{Chosen, Same};
use std::mem::size_of_val;
use std::thread::Threads;

/// At each place the element of `a` if the flag is true, else that of `b`: `sel_wuz` and `sel_wub`.
///
/// The result is as long as the three vectors. The one fault is `LengthMismatch`, without a place, if they differ in length.
/// `rayon` shares long vectors among threads, whatever the number of workers. Source: CVL's elementwise calls.
pub fn select<T: Copy + Send + Sync, R: Threads + Sync, A: Memory>(
    rt: &R,
    alloc: A,
    _config: Config,
    flags: &[bool],
    a: &[T],
    b: &[T],
) -> Result<Vec<T, A>, Refused>
    ensures values { Gives (λ v. v.items) result (choose_of flags.now a.now b.now) }
    ensures as_long { IfOk result (λ v. vec_len v ≡ length flags.now) }
{
    check_agree(flags.len(), a.len())?;
    check_agree(flags.len(), b.len())?;
    let read = flags.len().saturating_add(size_of_val(a).saturating_mul(2));
    let chosen = Chosen::<Same, Same, bool, T>::new(flags, a, b);
    Ok(written_by_rayon(rt, alloc, &chosen, flags.len(), read)?)
}
