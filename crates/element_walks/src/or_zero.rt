//! Makes an operator with a value on all pairs of one without a value on some.

ghost use Rattle.std.specs.Prelude.{pos};
ghost use Rattle.std.specs.Option.{unwrap_or};

use cvl_base::{Binary, PartialBinary};
use std::marker::PhantomData;

/// The operator's value if it has one, else 0.
#[derive(Drop)]
pub struct OrZero<O> {
    operator: PhantomData<O>,
}

impl<O: PartialBinary> Binary<i32, i32> for OrZero<O> {
    ghost value = { λ a b. unwrap_or (O.value a b) (pos 0) };

    fn apply(a: i32, b: i32) -> i32 {
        O::apply(&a, &b).unwrap_or(0)
    }
}
