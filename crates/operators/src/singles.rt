//! The operators on one element, conversions among them.

ghost use Rattle.std.specs.Prelude.{not};
ghost use Rattle.operators.specs.Conversions.{boolean_of, integer_of};
ghost use Rattle.operators.specs.Integers.{not_of};

use crate::operator::Single;

/// Each of the 32 bits inverted.
pub struct NotInt;

impl Single<i32, i32> for NotInt {
    ghost value = { not_of };

    #[inline]
    fn apply(a: i32) -> i32 {
        !a
    }
}

/// True if the boolean is false.
pub struct NotBool;

impl Single<bool, bool> for NotBool {
    ghost value = { not };

    #[inline]
    fn apply(a: bool) -> bool {
        !a
    }
}

/// 1 for true and 0 for false.
pub struct IntOfBool;

impl Single<bool, i32> for IntOfBool {
    ghost value = { integer_of };

    #[inline]
    fn apply(a: bool) -> i32 {
        i32::from(a)
    }
}

/// True for each number but 0.
pub struct BoolOfInt;

impl Single<i32, bool> for BoolOfInt {
    ghost value = { boolean_of };

    #[inline]
    fn apply(a: i32) -> bool {
        a != 0
    }
}
