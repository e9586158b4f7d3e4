//! The comparisons of two integers, on signed numbers.

ghost use Rattle.operators.specs.Integers.{is_greater, is_at_least, is_equal, is_unequal};

use crate::operator::Binary;
use crate::sides::Flipped;

/// The first is greater.
pub struct Greater;

impl Binary<i32, bool> for Greater {
    ghost value = { is_greater };

    #[inline]
    fn apply(a: i32, b: i32) -> bool {
        a > b
    }
}

/// The first is less, so the second is greater.
pub type Less = Flipped<Greater>;

/// The first is greater, or they are equal.
pub struct AtLeast;

impl Binary<i32, bool> for AtLeast {
    ghost value = { is_at_least };

    #[inline]
    fn apply(a: i32, b: i32) -> bool {
        a >= b
    }
}

/// The first is less, or they are equal.
pub type AtMost = Flipped<AtLeast>;

/// They are equal.
pub struct Equal;

impl Binary<i32, bool> for Equal {
    ghost value = { is_equal };

    #[inline]
    fn apply(a: i32, b: i32) -> bool {
        a == b
    }
}

/// They aren't equal.
pub struct Unequal;

impl Binary<i32, bool> for Unequal {
    ghost value = { is_unequal };

    #[inline]
    fn apply(a: i32, b: i32) -> bool {
        a != b
    }
}
