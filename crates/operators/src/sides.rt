//! Operators on two elements that take them in the other order, or one element twice.

use crate::operator::{Binary, Single};
use std::marker::PhantomData;

/// The operator with its elements in the other order.
pub struct Flipped<O> {
    operator: PhantomData<O>,
}

impl<O: Binary<X, Z>, X: Copy, Z> Binary<X, Z> for Flipped<O> {
    ghost value = { λ a b. O.value b a };

    #[inline]
    fn apply(a: X, b: X) -> Z {
        O::apply(b, a)
    }
}

/// The operator on an element and itself.
pub struct Twice<O> {
    operator: PhantomData<O>,
}

impl<O: Binary<X, X>, X: Copy> Single<X, X> for Twice<O> {
    ghost value = { λ a. O.value a a };

    #[inline]
    fn apply(a: X) -> X {
        O::apply(a, a)
    }
}
