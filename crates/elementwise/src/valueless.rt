//! Looks for the first pair of elements on which an operator has no value, on the calling thread.

ghost use Rattle.std.specs.Prelude.{◌≡◌, ℕ, ◌<◌, ◌≤◌, pos, Err, IsTrue, MatchResult, None, length, slice_index_or};
ghost use Rattle.std.specs.Option.{unwrap_or};
ghost use Rattle.cvl_base.specs.Elementwise.{on_pairs, on_pairs_or};
ghost use Rattle.cvl_base.specs.Limits.{most_places};
ghost use Rattle.elementwise.specs.Valueless.{least_without, slots_without};

use cvl_base::{Fault, PartialBinary, check_agree};

/// How many pairs are tested before any answer is asked for.
const BLOCK: usize = 4096;

/// Whether the operator has a value on each pair from place `from` to the one before place `to`.
// The loop has no early exit, so that one step tests several places.
pub(crate) fn all_have_values<O: PartialBinary>(
    first: &[i32],
    second: &[i32],
    from: usize,
    to: usize,
) -> bool
    requires in_first { to ≤ length first.now }
    requires in_second { to ≤ length second.now }
    ensures { IsTrue result → (place : ℕ) → from ≤ place → place < to
        → slice_index_or (slots_without O.value first.now second.now) place None ≡ None }
{
    let mut clear = true;
    for place in from..to {
        clear &= O::has_value(&first[place], &second[place]);
    }
    clear
}

/// The first place without a value from place `from` on, in two vectors of equal length.
fn first_from<O: PartialBinary>(a: &[i32], b: &[i32], from: usize) -> Option<u32>
    requires as_long { length a.now ≡ length b.now }
    requires in_limit { length a.now ≤ most_places }
    requires within { from ≤ length a.now }
    ensures { result ≡ least_without O.value a.now b.now from }
{
    for place in from..a.len() {
        if !O::has_value(&a[place], &b[place]) {
            return Some(place as u32);
        }
    }
    None
}

/// The first place without a value, in two vectors of equal length.
pub(crate) fn first_without<O: PartialBinary>(a: &[i32], b: &[i32]) -> Option<u32>
    requires as_long { length a.now ≡ length b.now }
    requires in_limit { length a.now ≤ most_places }
    ensures { result ≡ least_without O.value a.now b.now 0 }
{
    let mut start = 0;
    while start < a.len() {
        let end = (start + BLOCK).min(a.len());
        if !all_have_values::<O>(a, b, start, end) {
            return first_from::<O>(a, b, start);
        }
        start = end;
    }
    None
}

/// Checks that the operator has a value on all pairs of elements, else its fault at the first place without one; `LengthMismatch`
/// if one vector is longer.
pub(crate) fn check_values<O: PartialBinary>(a: &[i32], b: &[i32]) -> Result<(), Fault>
    requires { length a.now ≤ most_places }
    ensures { MatchResult result
        (λ _. on_pairs_or O.fault O.value a.now b.now ≡ on_pairs (λ x y. unwrap_or (O.value x y) (pos 0)) a.now b.now)
        (λ f. on_pairs_or O.fault O.value a.now b.now ≡ Err f) }
{
    check_agree(a.len(), b.len())?;
    match first_without::<O>(a, b) {
        Some(place) => Err(Fault::at(O::fault(), place)),
        None => Ok(()),
    }
}
