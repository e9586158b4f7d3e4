//! Operators without a value on some pairs: first the first such pair is searched for, by workers that race if the vectors are
//! long, and then the values are written.

ghost use Rattle.std.specs.Prelude.{◌≡◌, ◌≤◌, IfOk, length, map, vec_len};
ghost use Rattle.std.specs.List.{zip};
ghost use Rattle.cvl_base.specs.Elementwise.{on_pairs_or};
ghost use Rattle.cvl_base.specs.Gives.{Gives};
ghost use Rattle.cvl_base.specs.Limits.{most_elements};
ghost use Rattle.elementwise.specs.Valueless.{least_without, slot_without};

use crate::valueless::{all_have_values, first_without};
use boards::Targets;
use crew::Gate;
use cvl_base::{Config, Fault, Memory, NoResources, PartialBinary, Refused, check_agree};
use element_walks::{OnPairs, OrZero};
use fresh::write_in_runs;
use least_races::{least_pace, race_for_least};
use sharing::threads_writing;
use std::marker::PhantomData;
use std::thread::Threads;

/// The places of two vectors at which an operator has no value, all in one slot.
#[derive(Drop)]
struct Valueless<'a, O> {
    first: &'a [i32],
    second: &'a [i32],
    operator: PhantomData<O>,
    ghost as_long: { length first.now ≡ length second.now },
    ghost few: { length first.now ≤ most_elements },
}

impl<'a, O: PartialBinary> Targets for Valueless<'a, O> {
    ghost targets = { λ t. map (λ p. slot_without (O.value p.0 p.1)) (zip t.first.now t.second.now) };

    ghost slot_count = { λ t. 1 };

    #[tactic(auto, using(element_walks::proofs::Places::zipped))]
    fn places(&self) -> u32 {
        self.first.len() as u32
    }

    fn slots(&self) -> u32 {
        1
    }

    #[tactic(auto, using(element_walks::proofs::Places::zipped))]
    fn slot(&self, place: u32) -> Option<u32> {
        let place = place as usize;
        if O::has_value(&self.first[place], &self.second[place]) {
            None
        } else {
            Some(0)
        }
    }

    #[tactic(auto, using(element_walks::proofs::Places::zipped))]
    fn is_clear(&self, from: u32, to: u32) -> bool {
        all_have_values::<O>(self.first, self.second, from as usize, to as usize)
    }
}

/// The first place at which the operator has no value on the pair of elements of two equally long vectors, found by workers who
/// race, or by the calling thread.
fn least_valueless<O: PartialBinary + Send + Sync, R: Threads + Sync, A: Memory, G: Gate>(
    rt: &R,
    alloc: A,
    config: Config,
    a: &[i32],
    b: &[i32],
    gate: &G,
) -> Result<Option<u32>, NoResources>
    requires as_long { length a.now ≡ length b.now }
    requires in_limit { length a.now ≤ most_elements }
    ensures { IfOk result (λ place. place ≡ least_without O.value a.now b.now 0) }
{
    let Some(pace) = least_pace(config, a.len()) else {
        return Ok(first_without::<O>(a, b));
    };
    let valueless = Valueless::<O> {
        first: a,
        second: b,
        operator: PhantomData,
    };
    race_for_least(rt, alloc, pace, &valueless, gate)
}

/// The operator's values on the pairs of elements, or its fault at the first place without a value; `LengthMismatch` if one
/// vector is longer.
// Vector code checks all pairs before the first value is written. A walk that stops at a pair has none.
pub(crate) fn values_or_fault<
    O: PartialBinary + Send + Sync,
    R: Threads + Sync,
    A: Memory,
    G: Gate,
>(rt: &R, alloc: A, config: Config, a: &[i32], b: &[i32], gate: &G) -> Result<Vec<i32, A>, Refused>
    requires in_limit { length a.now ≤ most_elements }
    ensures values { Gives (λ v. v.items) result (on_pairs_or O.fault O.value a.now b.now) }
    ensures as_long { IfOk result (λ v. vec_len v ≡ length a.now) }
{
    check_agree(a.len(), b.len())?;
    if let Some(place) = least_valueless::<O, R, A, G>(rt, alloc, config, a, b, gate)? {
        return Err(Refused::Fault(Fault::at(O::fault(), place)));
    }
    let values = OnPairs::<OrZero<O>, i32>::new(a, b);
    Ok(write_in_runs(
        rt,
        alloc,
        threads_writing(config, a.len()),
        &values,
        a.len(),
    )?)
}
