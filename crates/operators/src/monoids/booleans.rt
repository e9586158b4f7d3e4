//! The three operators on booleans. Both are items, and a boolean's word is 0 or 1.

ghost use Rattle.std.specs.Prelude.{true, false};
ghost use Rattle.operators.specs.Booleans.{both, either, differ};
ghost use Rattle.operators.specs.Conversions.{boolean_of, integer_of};
ghost use Rattle.operators.specs.ItemWords.{is_boolean};
ghost use Rattle.operators.specs.BooleanLaws.{both_laws, either_laws, differ_laws, boolean_words};

use crate::operator::{Binary, Operator, Packable};

impl Packable for bool {
    ghost is_item = { is_boolean };

    ghost to_word = { integer_of };

    ghost from_word = { boolean_of };

    ghost words = { boolean_words };

    fn is_item(self) -> bool {
        true
    }

    fn to_word(self) -> i64 {
        i64::from(self)
    }

    fn from_word(word: i64) -> bool {
        word != 0
    }
}

/// Whether both of two booleans are true; its unit is true.
pub struct BoolAnd;

impl Binary<bool, bool> for BoolAnd {
    ghost value = { both };

    #[inline]
    fn apply(a: bool, b: bool) -> bool {
        a & b
    }
}

impl Operator for BoolAnd {
    type Value = bool;

    ghost UNIT = { true };

    const UNIT: bool = true; // of no booleans none is false

    ghost associates = { both_laws };
}

/// Whether one of two booleans or both are true; its unit is false.
pub struct BoolIor;

impl Binary<bool, bool> for BoolIor {
    ghost value = { either };

    #[inline]
    fn apply(a: bool, b: bool) -> bool {
        a | b
    }
}

impl Operator for BoolIor {
    type Value = bool;

    ghost UNIT = { false };

    const UNIT: bool = false;

    ghost associates = { either_laws };
}

/// Whether exactly one of two booleans is true; its unit is false.
pub struct BoolXor;

impl Binary<bool, bool> for BoolXor {
    ghost value = { differ };

    #[inline]
    fn apply(a: bool, b: bool) -> bool {
        a ^ b
    }
}

impl Operator for BoolXor {
    type Value = bool;

    ghost UNIT = { false };

    const UNIT: bool = false;

    ghost associates = { differ_laws };
}
