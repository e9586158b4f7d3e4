//! The vector of the values of an operator that has one on each two elements.

ghost use Rattle.std.specs.Prelude.{◌≡◌, ◌+◌, ◌≤◌, [], length, map};
ghost use Rattle.std.specs.List.{zip};
ghost use Rattle.fresh.specs.Parts.{part};
ghost use Rattle.fresh.specs.Places.{stretch};

use cvl_base::Binary;
use fresh::{Run, Writer};
use std::marker::PhantomData;

/// Writes an operator's values on the pairs of elements of two vectors.
#[derive(Drop)]
pub struct OnPairs<'a, O, X> {
    /// The first operand at each place.
    pub first: &'a [X],
    /// The second.
    pub second: &'a [X],
    operator: PhantomData<O>,
}

impl<'a, O, X> OnPairs<'a, O, X> {
    /// The writer of the values on the elements at the same places.
    pub fn new(first: &'a [X], second: &'a [X]) -> OnPairs<'a, O, X>
        ensures first { result.first.now ≡ first.now }
        ensures second { result.second.now ≡ second.now }
    {
        OnPairs {
            first,
            second,
            operator: PhantomData,
        }
    }
}

impl<'a, O: Binary<X, Z>, X: Copy, Z> Writer<Z> for OnPairs<'a, O, X> {
    ghost whole = { λ w. map (λ p. O.value p.0 p.1) (zip w.first.now w.second.now) };

    #[tactic(auto, using(crate::proofs::Places::zipped))]
    fn write(&self, run: Run<Z>) -> Run<Z>
        requires empty { run.items ≡ [] }
        requires within { run.first + run.room
            ≤ length (map (λ p. O.value p.0 p.1) (zip self.now.first.now self.now.second.now)) }
        ensures { result ≡ stretch run.block run.first
            (part (map (λ p. O.value p.0 p.1) (zip self.now.first.now self.now.second.now)) run.first run.room) 0 }
    {
        run.fill_by_both(
            self.first,
            self.second,
            |x: X, y: X| -> Z
                ensures { result ≡ O.value x y }
            { O::apply(x, y) },
        )
    }
}
