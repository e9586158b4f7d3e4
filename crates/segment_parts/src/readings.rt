//! Bytes that stand for flags, read as items of monoids.

ghost use Rattle.flag_calls.specs.Flags.{flag_of};
ghost use Rattle.segment_parts.specs.ReduceCalls.{one_if_true};

use flag_calls::flag_of;
use scan_walks::Reading;

/// Whether a byte is true.
pub(crate) struct TrueByte;

impl Reading<u8, bool> for TrueByte {
    ghost item = { flag_of };

    fn item(byte: u8) -> bool {
        flag_of(byte)
    }
}

/// 1 for a byte that is true, and 0 for one that is false.
pub(crate) struct OneIfTrue;

impl Reading<u8, i32> for OneIfTrue {
    ghost item = { one_if_true };

    fn item(byte: u8) -> i32 {
        if flag_of(byte) { 1 } else { 0 }
    }
}
