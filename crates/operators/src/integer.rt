//! The operators on two 32-bit integers in two's complement that have no unit. Those without a value on some pairs say so.

ghost use Rattle.std.specs.Prelude.{◌≡◌};
ghost use Rattle.operators.specs.Integers.{difference_of, left_shift_of, quotient_of, remainder_of, right_shift_of};

use crate::operator::Binary;

/// The wrapped difference of two integers.
pub struct Sub;

impl Binary<i32, i32> for Sub {
    ghost value = { difference_of };

    #[inline]
    #[tactic(auto, using(std::proofs::lemmas::Int::wraps))]
    fn apply(a: i32, b: i32) -> i32 {
        a.wrapping_sub(b)
    }
}

/// The quotient of `a` by `b`, truncated toward zero; -2147483648 by -1 wraps to -2147483648.
///
/// None if `b` is 0.
#[inline]
#[tactic(auto, using(crate::proofs::Wrapping::wrapping_div_is))]
pub fn div(a: i32, b: i32) -> Option<i32>
    ensures { result ≡ quotient_of a b }
{
    if b == 0 {
        None
    } else {
        Some(a.wrapping_div(b))
    }
}

/// What [`div`] leaves of `a`, with the sign of `a`.
///
/// None if `b` is 0.
#[inline]
pub fn remainder(a: i32, b: i32) -> Option<i32>
    ensures { result ≡ remainder_of a b }
{
    if b == 0 {
        None
    } else {
        Some(a.wrapping_rem(b))
    }
}

/// The bits of `a` moved up by `places`: `a * 2^places`, wrapped to 32 bits.
///
/// None if `places` is not in 0..=31.
#[inline]
#[tactic(auto, using(crate::proofs::Wrapping::shl_is))]
pub fn lsh(a: i32, places: i32) -> Option<i32>
    ensures { result ≡ left_shift_of a places }
{
    let places = u32::try_from(places).ok()?;
    a.checked_shl(places)
}

/// The bits of `a` moved down by `places`, the sign copied: the floor of `a / 2^places`.
///
/// None if `places` is not in 0..=31.
#[inline]
pub fn rsh(a: i32, places: i32) -> Option<i32>
    ensures { result ≡ right_shift_of a places }
{
    let places = u32::try_from(places).ok()?;
    a.checked_shr(places)
}
