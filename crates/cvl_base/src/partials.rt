//! The operators without a value on some pairs of integers, each with the fault of such a pair.

ghost use Rattle.std.specs.Prelude.{◌≡◌, ℤ, Option};
ghost use Rattle.std.specs.Option.{is_some};
ghost use Rattle.cvl_base.specs.Integers.{quotient_of, remainder_of, left_shift_of, right_shift_of};
ghost use Rattle.cvl_base.specs.declared.fault.FaultNo.{FaultNo};
ghost use Rattle.cvl_base.specs.declared.fault.FaultNo.TheVariants as no;

use crate::fault::FaultNo;
use operators::integer;

/// An operator without a value on some pairs of integers.
pub trait PartialBinary {
    ghost value: { ℤ → ℤ → Option ℤ };

    ghost fault: { FaultNo };

    fn apply(a: &i32, b: &i32) -> Option<i32>
        ensures { result ≡ value a.now b.now };

    /// Whether the operator has a value on the pair.
    fn has_value(a: &i32, b: &i32) -> bool
        ensures { result ≡ is_some (value a.now b.now) };

    /// The fault of a pair without a value.
    fn fault() -> FaultNo
        ensures { result ≡ fault };
}

/// The quotient, truncated toward zero; none if the divisor is 0.
pub struct Div;

impl PartialBinary for Div {
    ghost value = { quotient_of };

    ghost fault = { no.DivideByZero };

    fn apply(a: &i32, b: &i32) -> Option<i32> {
        integer::div(*a, *b)
    }

    fn has_value(_a: &i32, b: &i32) -> bool {
        *b != 0
    }

    fn fault() -> FaultNo {
        FaultNo::DivideByZero
    }
}

/// The remainder of that quotient; none if the divisor is 0.
pub struct Mod;

impl PartialBinary for Mod {
    ghost value = { remainder_of };

    ghost fault = { no.DivideByZero };

    fn apply(a: &i32, b: &i32) -> Option<i32> {
        integer::remainder(*a, *b)
    }

    fn has_value(_a: &i32, b: &i32) -> bool {
        *b != 0
    }

    fn fault() -> FaultNo {
        FaultNo::DivideByZero
    }
}

/// The shift to the left; none if the places aren't in 0 to 31.
pub struct Lsh;

impl PartialBinary for Lsh {
    ghost value = { left_shift_of };

    ghost fault = { no.ShiftOutOfRange };

    fn apply(a: &i32, b: &i32) -> Option<i32> {
        integer::lsh(*a, *b)
    }

    fn has_value(_a: &i32, b: &i32) -> bool {
        (0..=31).contains(b)
    }

    fn fault() -> FaultNo {
        FaultNo::ShiftOutOfRange
    }
}

/// The shift to the right; none if the places aren't in 0 to 31.
pub struct Rsh;

impl PartialBinary for Rsh {
    ghost value = { right_shift_of };

    ghost fault = { no.ShiftOutOfRange };

    fn apply(a: &i32, b: &i32) -> Option<i32> {
        integer::rsh(*a, *b)
    }

    fn has_value(_a: &i32, b: &i32) -> bool {
        (0..=31).contains(b)
    }

    fn fault() -> FaultNo {
        FaultNo::ShiftOutOfRange
    }
}
