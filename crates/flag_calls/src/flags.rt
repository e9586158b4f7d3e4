//! Flags that come as bytes, any of which but 0 is true, as in C, and operators on them.

ghost use Rattle.std.specs.Prelude.{◌≡◌, map, not};
ghost use Rattle.std.specs.List.{list_all};
ghost use Rattle.cvl_base.specs.Conversions.{integer_of};
ghost use Rattle.flag_calls.specs.Flags.{as_flag, byte_of, flag_of, is_flag};

use cvl_base::singles::IntOfBool;
use cvl_base::{Binary, Single};
use element_walks::Same;
use elementwise::on_each_in;
use scan_walks::Reading;
use std::marker::PhantomData;

/// Whether a byte is true.
#[inline]
pub fn flag_of(byte: u8) -> bool
    ensures { result ≡ flag_of byte }
{
    byte != 0
}

/// The byte of a boolean.
#[inline]
pub(crate) fn byte_of(flag: bool) -> u8
    ensures { result ≡ byte_of flag }
{
    u8::from(flag)
}

/// Whether each byte is 0 or 1.
// It looks at all of them, which is faster than a branch on each.
pub fn are_flags(bytes: &[u8]) -> bool
    ensures { result ≡ list_all is_flag bytes.now }
{
    let mut all = true;
    for byte in bytes {
        all &= *byte < 2;
    }
    all
}

/// Makes each byte that is not 0 a 1.
pub fn make_flags(bytes: &mut [u8])
    ensures { bytes.new ≡ map as_flag bytes.old }
{
    on_each_in::<OnBytes<Same>, u8>(bytes);
}

/// An operator on booleans, on bytes that stand for them.
pub(crate) struct OnBytes<O> {
    operator: PhantomData<O>,
}

impl<O: Binary<bool, bool>> Binary<u8, u8> for OnBytes<O> {
    ghost value = { λ a b. byte_of (O.value (flag_of a) (flag_of b)) };

    fn apply(a: u8, b: u8) -> u8 {
        byte_of(O::apply(flag_of(a), flag_of(b)))
    }
}

impl<O: Single<bool, bool>> Single<u8, u8> for OnBytes<O> {
    ghost value = { λ a. byte_of (O.value (flag_of a)) };

    fn apply(a: u8) -> u8 {
        byte_of(O::apply(flag_of(a)))
    }
}

/// Whether a byte is true.
pub(crate) struct TrueByte;

impl Single<u8, bool> for TrueByte {
    ghost value = { flag_of };

    fn apply(a: u8) -> bool {
        flag_of(a)
    }
}

impl Reading<u8, bool> for TrueByte {
    ghost item = { flag_of };

    fn item(byte: u8) -> bool {
        flag_of(byte)
    }
}

/// Whether a byte is false.
pub(crate) struct FalseByte;

impl Single<u8, bool> for FalseByte {
    ghost value = { λ a. not (flag_of a) };

    fn apply(a: u8) -> bool {
        a == 0
    }
}

/// 1 for a byte that is true, and 0 for one that is false.
pub(crate) struct OneForTrue;

impl Single<u8, i32> for OneForTrue {
    ghost value = { λ a. integer_of (flag_of a) };

    fn apply(a: u8) -> i32 {
        IntOfBool::apply(flag_of(a))
    }
}
