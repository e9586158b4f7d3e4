//! The values of an operator on one element or on two, over a vector or two.

ghost use Rattle.std.specs.Prelude.{◌≡◌, IfOk, length, map, vec_len};
ghost use Rattle.cvl_base.specs.Elementwise.{on_pairs};
ghost use Rattle.cvl_base.specs.Gives.{Gives};

use crate::shared::written_by_rayon;
use cvl_base::{Binary, Memory, NoResources, Refused, Single, check_agree};
use element_walks::{OnEach, OnPairs};
use std::mem::size_of_val;
use std::thread::Threads;

/// The operator's values on the elements.
pub(crate) fn values_on_each<
    O: Single<X, Z> + Send + Sync,
    X: Copy + Sync,
    Z: Copy + Send,
    R: Threads + Sync,
    A: Memory,
>(rt: &R, alloc: A, a: &[X]) -> Result<Vec<Z, A>, NoResources>
    ensures values { IfOk result (λ v. v.items ≡ map O.value a.now) }
    ensures as_long { IfOk result (λ v. vec_len v ≡ length a.now) }
{
    written_by_rayon(rt, alloc, &OnEach::<O, X>::new(a), a.len(), size_of_val(a))
}

/// The operator's values on the pairs of elements of two vectors, or `LengthMismatch` if one is longer.
pub(crate) fn values_on_pairs<
    O: Binary<X, Z> + Send + Sync,
    X: Copy + Sync,
    Z: Copy + Send,
    R: Threads + Sync,
    A: Memory,
>(rt: &R, alloc: A, a: &[X], b: &[X]) -> Result<Vec<Z, A>, Refused>
    ensures values { Gives (λ v. v.items) result (on_pairs O.value a.now b.now) }
    ensures as_long { IfOk result (λ v. vec_len v ≡ length a.now) }
{
    check_agree(a.len(), b.len())?;
    let read = size_of_val(a).saturating_mul(2);
    Ok(written_by_rayon(rt, alloc, &OnPairs::<O, X>::new(a, b), a.len(), read)?)
}
