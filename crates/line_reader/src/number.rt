//! The numbers that tokens write.

ghost use Rattle.std.specs.Prelude.{◌≡◌, ◌<◌, ◌≤◌, ◌^◌, length, take, IfSome, option_map, pos, neg_ℤ, if◌then◌else◌};
ghost use Rattle.std.specs.Char.{is_ascii_digit};
ghost use Rattle.line_reader.specs.Numbers.{written_number, signed_digits, AreLeading};

use crate::digits::{LANES, decimal, digit_run, moved};
use std::simd::prelude::*;

/// The greatest magnitude of an integer of 32 bits: that of -2147483648.
const GREATEST_MAGNITUDE: u64 = 2_147_483_648;

/// How many digits the bytes begin with, and their number, read one by one. The walk also ends if that number exceeds
/// 2,147,483,648.
fn walked_digits(bytes: &[u8]) -> (usize, u64)
    ensures { AreLeading bytes.now result.0 result.1 }
{
    let mut value: u64 = 0;
    for (i, byte) in bytes.iter().enumerate() {
        if !byte.is_ascii_digit() || value > GREATEST_MAGNITUDE {
            return (i, value);
        }
        value = value * 10 + u64::from(*byte - b'0');
    }
    (bytes.len(), value)
}

/// How many digits the bytes begin with, and their number. If it exceeds 2,147,483,648, it may be that of only the first digits.
#[inline(always)]
fn leading_digits(bytes: &[u8]) -> (usize, u64)
    ensures { AreLeading bytes.now result.0 result.1 }
{
    // nearly every number has fewer digits than there are lanes
    if bytes.len() >= LANES {
        let digits = u8x16::from_slice(bytes) - u8x16::splat(b'0');
        let count = digit_run(digits);
        if 0 < count && count < LANES {
            return (count, decimal(moved(digits, LANES - count)));
        }
    }
    walked_digits(bytes)
}

/// The integer of this sign and magnitude.
#[inline(always)]
fn signed(is_negative: bool, magnitude: u64) -> i64
    requires { magnitude < 2 ^ 63 }
    ensures { result ≡ (if is_negative then neg_ℤ (pos magnitude) else pos magnitude) }
{
    let value = magnitude as i64;
    // no branch, since a processor can't foresee the sign
    if is_negative { -value } else { value }
}

/// The integer with which the bytes begin, an optional `-` and all the digits after it, and its length in bytes; `None` if there
/// is no digit or the integer is outside 32 bits. What stands after them is not read.
#[inline(always)]
pub fn leading_number(bytes: &[u8]) -> Option<(i32, usize)>
    ensures number { option_map (λ n. n.0) result ≡ written_number (signed_digits bytes.now) }
    ensures front { IfSome result (λ n. take n.1 bytes.now ≡ signed_digits bytes.now) }
    ensures within { IfSome result (λ n. n.1 ≤ length bytes.now) }
{
    let (first, _others) = bytes.split_first()?;
    let is_negative = *first == b'-';
    let sign_length = usize::from(is_negative);
    let (_sign, digits) = bytes.split_at(sign_length);
    let (count, magnitude) = leading_digits(digits);
    if count == 0 {
        return None;
    }
    let value = i32::try_from(signed(is_negative, magnitude)).ok()?;
    Some((value, sign_length + count))
}

/// The integer that a token writes: an optional `-` and at least one digit, inside 32 bits. A token of any length
/// costs one pass over it; leading zeros and `-0` are numbers, and `+2` is none.
#[tactic(auto, using(crate::proofs::NumberWalk::none_at_front, crate::proofs::NumberWalk::none_with_more))]
pub fn number(token: &[u8]) -> Option<i32>
    ensures { result ≡ written_number token.now }
{
    let (value, length) = leading_number(token)?;
    if length < token.len() {
        return None;
    }
    Some(value)
}
