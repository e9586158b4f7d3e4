//! Digits in the lanes of sixteen bytes, without a branch for each: a processor can't foresee where a number ends.

ghost use Rattle.std.specs.Prelude.{◌≡◌, ◌-◌, ◌<◌, ◌++◌, nat_lt, replicate, take};
ghost use Rattle.std.specs.List.{prefix_len};
ghost use Rattle.std.specs.Int.Digits.{number_from_digits, AllBelowBase};

use std::simd::prelude::*;

/// How many bytes are tested together.
pub(crate) const LANES: usize = 16;

/// How many lanes, from the first on, are below 10.
#[inline(always)]
#[tactic(auto, using(crate::proofs::DigitLanes::run_of_all, crate::proofs::DigitLanes::run_of_some))]
pub(crate) fn digit_run(lanes: u8x16) -> usize
    ensures { result ≡ prefix_len (λ lane. nat_lt lane 10) lanes }
{
    let others = lanes.simd_ge(u8x16::splat(10)).to_bitmask();
    if others == 0 {
        LANES
    } else {
        others.trailing_zeros() as usize
    }
}

/// The lanes, each moved by that many places, after zeros. Those that would pass the end are left out.
#[inline(always)]
pub(crate) fn moved(lanes: u8x16, by: usize) -> u8x16
    requires { by < LANES }
    ensures { result ≡ replicate by 0 ++ take (LANES - by) lanes }
{
    let [low, high] = u64x2::from_le_bytes(lanes).to_array();
    let number = ((u128::from(high) << 64) + u128::from(low)) << (8 * by);
    let low = (number & u128::from(u64::MAX)) as u64;
    u64x2::from_array([low, (number >> 64) as u64]).to_le_bytes()
}

/// The number of sixteen decimal digits, the highest first.
#[inline(always)]
pub(crate) fn decimal(digits: u8x16) -> u64
    requires { AllBelowBase 10 digits }
    ensures { result ≡ number_from_digits 10 digits }
{
    let mut value: u64 = 0;
    for digit in digits.as_array() {
        value = value * 10 + u64::from(*digit);
    }
    value
}
