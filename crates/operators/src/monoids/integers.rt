//! The operators on two integers that also scan and reduce vectors. Each number of 32 bits is an item, and is its own word.

ghost use Rattle.std.specs.Prelude.{◌≡◌, pos, negsuc};
ghost use Rattle.operators.specs.Integers.{sum_of, product_of, lesser_of, greater_of, and_of, ior_of, xor_of, wrap};
ghost use Rattle.operators.specs.ItemWords.{is_number, same_word};
ghost use Rattle.operators.specs.NumberLaws.{sum_laws, product_laws, lesser_laws, greater_laws, and_laws, ior_laws, xor_laws};
ghost use Rattle.operators.specs.NumberLaws.{number_words};

use crate::operator::{Binary, Operator, Packable};

/// How many numbers 32 bits hold.
const NUMBERS: u64 = 0x1_0000_0000;

impl Packable for i32 {
    ghost is_item = { is_number };

    ghost to_word = { same_word };

    ghost from_word = { wrap };

    ghost words = { number_words };

    fn is_item(self) -> bool {
        true
    }

    fn to_word(self) -> i64 {
        i64::from(self)
    }

    fn from_word(word: i64) -> i32 {
        number_of(word)
    }
}

/// The number of 32 bits that is congruent to `word` modulo 2^32: for a number's word the number itself.
#[tactic(auto, using(crate::proofs::Wrapping::wrap_64))]
fn number_of(word: i64) -> i32
    ensures { result ≡ wrap word }
{
    ((word.cast_unsigned() % NUMBERS) as u32).cast_signed()
}

/// The wrapped sum of two integers; its unit is 0.
pub struct Add;

impl Binary<i32, i32> for Add {
    ghost value = { sum_of };

    #[inline]
    #[tactic(auto, using(std::proofs::lemmas::Int::wraps))]
    fn apply(a: i32, b: i32) -> i32 {
        a.wrapping_add(b)
    }
}

impl Operator for Add {
    type Value = i32;

    ghost UNIT = { pos 0 };

    const UNIT: i32 = 0;

    fn applies_in_one_step() -> bool {
        true
    }

    ghost associates = { sum_laws };
}

/// The wrapped product of two integers; its unit is 1.
pub struct Mul;

impl Binary<i32, i32> for Mul {
    ghost value = { product_of };

    #[inline]
    fn apply(a: i32, b: i32) -> i32 {
        a.wrapping_mul(b)
    }
}

impl Operator for Mul {
    type Value = i32;

    ghost UNIT = { pos 1 };

    const UNIT: i32 = 1;

    ghost associates = { product_laws };
}

/// The lesser of two integers; its unit is 2147483647.
pub struct Min;

impl Binary<i32, i32> for Min {
    ghost value = { lesser_of };

    #[inline]
    fn apply(a: i32, b: i32) -> i32 {
        a.min(b)
    }
}

impl Operator for Min {
    type Value = i32;

    ghost UNIT = { pos 2147483647 };

    const UNIT: i32 = i32::MAX;

    ghost associates = { lesser_laws };
}

/// The greater of two integers; its unit is -2147483648.
pub struct Max;

impl Binary<i32, i32> for Max {
    ghost value = { greater_of };

    #[inline]
    fn apply(a: i32, b: i32) -> i32 {
        a.max(b)
    }
}

impl Operator for Max {
    type Value = i32;

    ghost UNIT = { negsuc 2147483647 };

    const UNIT: i32 = i32::MIN;

    ghost associates = { greater_laws };
}

/// Bitwise and on the 32 bits of two integers; its unit is -1.
pub struct And;

impl Binary<i32, i32> for And {
    ghost value = { and_of };

    #[inline]
    fn apply(a: i32, b: i32) -> i32 {
        a & b
    }
}

impl Operator for And {
    type Value = i32;

    ghost UNIT = { negsuc 0 };

    const UNIT: i32 = -1;

    fn applies_in_one_step() -> bool {
        true
    }

    ghost associates = { and_laws };
}

/// Bitwise inclusive or on the 32 bits of two integers; its unit is 0.
pub struct Ior;

impl Binary<i32, i32> for Ior {
    ghost value = { ior_of };

    #[inline]
    fn apply(a: i32, b: i32) -> i32 {
        a | b
    }
}

impl Operator for Ior {
    type Value = i32;

    ghost UNIT = { pos 0 };

    const UNIT: i32 = 0;

    fn applies_in_one_step() -> bool {
        true
    }

    ghost associates = { ior_laws };
}

/// Bitwise exclusive or on the 32 bits of two integers; its unit is 0.
pub struct Xor;

impl Binary<i32, i32> for Xor {
    ghost value = { xor_of };

    #[inline]
    fn apply(a: i32, b: i32) -> i32 {
        a ^ b
    }
}

impl Operator for Xor {
    type Value = i32;

    ghost UNIT = { pos 0 };

    const UNIT: i32 = 0;

    fn applies_in_one_step() -> bool {
        true
    }

    ghost associates = { xor_laws };
}
