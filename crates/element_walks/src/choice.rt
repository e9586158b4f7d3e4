//! The choice between two elements by a flag, and the vector of the chosen ones.

ghost use Rattle.std.specs.Prelude.{◌≡◌, ◌+◌, ◌≤◌, ◌<◌, [], length, map, slice_index_or};
ghost use Rattle.std.specs.List.{zip};
ghost use Rattle.cvl_base.specs.Elementwise.{chosen};
ghost use Rattle.fresh.specs.Parts.{part};
ghost use Rattle.fresh.specs.Places.{stretch};

use cvl_base::Single;
use fresh::{Run, Writer};
use std::marker::PhantomData;

/// What stands there.
pub struct Same;

impl<X> Single<X, X> for Same {
    ghost value = { λ x. x };

    fn apply(a: X) -> X {
        a
    }
}

/// Writes at each place the element of the first vector if its flag passes the test, else that of the second, by an operator.
#[derive(Drop)]
pub struct Chosen<'a, F, O, B, T> {
    /// Whether the element at a place is that of the first vector, if it passes the test.
    pub flags: &'a [B],
    /// The elements for a flag that does.
    pub first: &'a [T],
    /// The elements for one that doesn't.
    pub second: &'a [T],
    test: PhantomData<F>,
    operator: PhantomData<O>,
}

impl<'a, F, O, B, T> Chosen<'a, F, O, B, T> {
    /// The writer of the choices at the same places.
    pub fn new(flags: &'a [B], first: &'a [T], second: &'a [T]) -> Chosen<'a, F, O, B, T>
        ensures flags { result.flags.now ≡ flags.now }
        ensures first { result.first.now ≡ first.now }
        ensures second { result.second.now ≡ second.now }
    {
        Chosen {
            flags,
            first,
            second,
            test: PhantomData,
            operator: PhantomData,
        }
    }
}

impl<'a, F: Single<B, bool>, O: Single<T, T>, B: Copy, T: Copy> Writer<T>
    for Chosen<'a, F, O, B, T> {
    ghost whole = { λ w. map (λ p. O.value (chosen (F.value p.0) p.1)) (zip w.flags.now (zip w.first.now w.second.now)) };

    fn write(&self, run: Run<T>) -> Run<T>
        requires empty { run.items ≡ [] }
        requires within { run.first + run.room
            ≤ length (map (λ p. O.value (chosen (F.value p.0) p.1))
            (zip self.now.flags.now (zip self.now.first.now self.now.second.now))) }
        ensures { result ≡ stretch run.block run.first
            (part (map (λ p. O.value (chosen (F.value p.0) p.1))
            (zip self.now.flags.now (zip self.now.first.now self.now.second.now))) run.first run.room) 0 }
    {
        let (flags, xs, ys) = (self.flags, self.first, self.second);
        run.fill(
            move |place: usize| -> T
                requires { (place < length flags.now) × (place < length xs.now) × (place < length ys.now) }
                ensures { (z : T) → result ≡ slice_index_or
                    (map (λ p. O.value (chosen (F.value p.0) p.1)) (zip flags.entry.now (zip xs.entry.now ys.entry.now))) place
                    z }
            {
                let flag = F::apply(flags[place]);
                O::apply(choose(flag, xs[place], ys[place]))
            },
        )
    }
}

/// `a` if the flag is true, else `b`.
#[inline]
pub fn choose<T: Copy>(flag: bool, a: T, b: T) -> T
    ensures { result ≡ chosen flag (a, b) }
{
    if flag { a } else { b }
}
