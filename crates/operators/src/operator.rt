//! Operators by what is their own: their values, and a monoid's unit. Their monoids, and the words of their items, are defined
//! once, for each of them.

ghost use Rattle.std.specs.Prelude.{◌≡◌, Bool, IsTrue, ℤ};
ghost use Rattle.operators.specs.ItemWords.{WordLaws};
ghost use Rattle.operators.specs.Monoid.{MonoidLaws};

use crate::monoid::{Monoid, Packed};

/// An operator on one element.
pub trait Single<X, Z> {
    ghost value: { X → Z };

    fn apply(a: X) -> Z
        ensures { result ≡ value a };
}

/// An operator with a value on each two elements.
pub trait Binary<X, Z> {
    ghost value: { X → X → Z };

    fn apply(a: X, b: X) -> Z
        ensures { result ≡ value a b };
}

/// A type, some or all of whose values are items, each of which can be kept as a word: a number from -2^53 to 2^53 - 1.
pub trait Packable: Copy {
    ghost is_item: { Self → Bool };

    ghost to_word: { Self → ℤ };

    ghost from_word: { ℤ → Self };

    /// Whether the value is an item.
    fn is_item(self) -> bool
        ensures { result ≡ is_item self };

    /// The word of an item.
    fn to_word(self) -> i64
        requires { IsTrue (is_item self) }
        ensures { result ≡ to_word self };

    /// The item of a word. Nothing is claimed of a word that is no item's.
    fn from_word(word: i64) -> Self
        ensures { result ≡ from_word word };

    ghost words: { WordLaws is_item to_word from_word };
}

/// An associative operator with a unit, over the items of a type.
pub trait Operator: Binary<Self::Value, Self::Value> {
    /// The values, some or all of which are items.
    type Value: Packable;

    ghost UNIT: { Self.Value };

    /// The item that changes no other when it is joined to it.
    const UNIT: Self::Value;

    /// The same as [`Monoid::joins_in_one_step`].
    fn applies_in_one_step() -> bool {
        false
    }

    ghost associates: { MonoidLaws Self.Value.is_item UNIT Self.value };
}

impl<O: Operator> Monoid for O {
    type Item = O::Value;

    ghost is_item = { O.Value.is_item };

    ghost unit = { O.UNIT };

    ghost join = { O.value };

    ghost laws = { O.associates };

    fn is_item(x: O::Value) -> bool {
        x.is_item()
    }

    fn unit() -> O::Value {
        O::UNIT
    }

    fn join(a: O::Value, b: O::Value) -> O::Value {
        O::apply(a, b)
    }

    fn joins_in_one_step() -> bool {
        O::applies_in_one_step()
    }
}

impl<O: Operator> Packed for O {
    ghost to_word = { O.Value.to_word };

    ghost from_word = { O.Value.from_word };

    ghost words = { O.Value.words };

    fn to_word(x: O::Value) -> i64 {
        x.to_word()
    }

    fn from_word(word: i64) -> O::Value {
        O::Value::from_word(word)
    }
}
