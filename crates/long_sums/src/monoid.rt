//! The sum in 64 bits as a monoid, and as an operator on pairs.

ghost use Rattle.std.specs.Prelude.{◌≡◌, pos};
ghost use Rattle.long_sums.specs.LongLaws.{long_laws};
ghost use Rattle.long_sums.specs.LongSums.{is_long, long_sum_of};

use cvl_base::{Binary, Monoid};

/// The sum, wrapped to 64 bits; its unit is 0.
pub struct LongSum;

impl Monoid for LongSum {
    type Item = i64;

    ghost is_item = { is_long };

    ghost unit = { pos 0 };

    ghost join = { long_sum_of };

    ghost laws = { long_laws };

    fn is_item(x: i64) -> bool {
        is_long(&x)
    }

    fn unit() -> i64 {
        0
    }

    fn join(a: i64, b: i64) -> i64 {
        long_sum(&a, &b)
    }
}

impl Binary<i64, i64> for LongSum {
    ghost value = { long_sum_of };

    #[inline]
    fn apply(a: i64, b: i64) -> i64 {
        long_sum(&a, &b)
    }
}

/// The sum, wrapped to 64 bits.
#[inline]
#[tactic(auto, using(std::proofs::lemmas::Int::wraps))]
fn long_sum(a: &i64, b: &i64) -> i64
    ensures { result ≡ long_sum_of a.now b.now }
{
    a.wrapping_add(*b)
}

/// Each number of 64 bits is an item.
#[tactic(auto, using(crate::proofs::Longs::each_is_long))]
fn is_long(x: &i64) -> bool
    ensures { result ≡ is_long x.now }
{
    let _value = *x;
    true
}
