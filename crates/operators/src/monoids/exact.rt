//! Exact sums of numbers of 54 bits.

ghost use Rattle.std.specs.Prelude.{◌≡◌, IsTrue, pos};
ghost use Rattle.operators.specs.Exact.{exact_sum_of};
ghost use Rattle.operators.specs.ExactLaws.{exact_laws, exact_words};
ghost use Rattle.operators.specs.ItemWords.{is_word, same_word};

use crate::monoid::{Monoid, Packed};

/// The greatest item.
const GREATEST: i64 = 0x1F_FFFF_FFFF_FFFF;

/// The least item.
const LEAST: i64 = -0x20_0000_0000_0000;

/// How many items there are.
const ITEMS: i64 = 0x40_0000_0000_0000;

/// The sum of two numbers from -2^53 to 2^53 - 1, wrapped into that range; its unit is 0.
///
/// A sum of at most 4,194,304 numbers of 32 bits lies in the range, so it is the sum over whole numbers, as
/// `exact_fold_law` says. Each item is its own word.
pub struct Exact;

impl Monoid for Exact {
    type Item = i64;

    ghost is_item = { is_word };

    ghost unit = { pos 0 };

    ghost join = { exact_sum_of };

    ghost laws = { exact_laws };

    fn is_item(x: i64) -> bool {
        (LEAST..=GREATEST).contains(&x)
    }

    fn unit() -> i64 {
        0
    }

    fn join(a: i64, b: i64) -> i64 {
        exact_sum(a, b)
    }
}

impl Packed for Exact {
    ghost to_word = { same_word };

    ghost from_word = { same_word };

    ghost words = { exact_words };

    fn to_word(x: i64) -> i64 {
        x
    }

    fn from_word(word: i64) -> i64 {
        word
    }
}

/// The number from -2^53 to 2^53 - 1 that is congruent to `a + b` modulo 2^54.
fn exact_sum(a: i64, b: i64) -> i64
    requires first { IsTrue (is_word a) }
    requires second { IsTrue (is_word b) }
    ensures { result ≡ exact_sum_of a b }
{
    let sum = a + b;
    if sum > GREATEST {
        sum - ITEMS
    } else if sum < LEAST {
        sum + ITEMS
    } else {
        sum
    }
}
