//! The vector of the values of an operator on one element.

ghost use Rattle.std.specs.Prelude.{◌≡◌, ◌+◌, ◌≤◌, [], length, map};
ghost use Rattle.fresh.specs.Parts.{part};
ghost use Rattle.fresh.specs.Places.{stretch};

use cvl_base::Single;
use fresh::{Run, Writer};
use std::marker::PhantomData;

/// Writes an operator's values on the elements of a vector.
#[derive(Drop)]
pub struct OnEach<'a, O, X> {
    /// The elements.
    pub elements: &'a [X],
    operator: PhantomData<O>,
}

impl<'a, O, X> OnEach<'a, O, X> {
    /// The writer of the values on these elements.
    pub fn new(elements: &'a [X]) -> OnEach<'a, O, X>
        ensures { result.elements.now ≡ elements.now }
    {
        OnEach {
            elements,
            operator: PhantomData,
        }
    }
}

impl<'a, O: Single<X, Z>, X: Copy, Z> Writer<Z> for OnEach<'a, O, X> {
    ghost whole = { λ w. map O.value w.elements.now };

    fn write(&self, run: Run<Z>) -> Run<Z>
        requires empty { run.items ≡ [] }
        requires within { run.first + run.room ≤ length (map O.value self.now.elements.now) }
        ensures { result ≡ stretch run.block run.first (part (map O.value self.now.elements.now) run.first run.room) 0 }
    {
        run.fill_by(
            self.elements,
            |x: X| -> Z
                ensures { result ≡ O.value x }
            { O::apply(x) },
        )
    }
}
