//! Statuses as words of 64 bits, and back.

ghost use Rattle.std.specs.Prelude.{◌≡◌, ◌<◌, ◌^◌, IsTrue};
ghost use Rattle.cvl_base.specs.ItemWords.{is_word};
ghost use Rattle.status_word.specs.Words.{FitsWord, read_rest, read_word, rest_of, state_place, value_of, word_of};

use crate::status::Status;

/// The place of the state, in bits 63 and 62.
const STATE: u64 = 0x4000_0000_0000_0000;

/// The place of the flag, bit 61.
const FLAG: u64 = 0x2000_0000_0000_0000;

/// How many values there are, in bits 53 to 0.
const VALUES: u64 = 0x40_0000_0000_0000;

/// The sign bit of a value, bit 53.
const SIGN: u64 = 0x20_0000_0000_0000;

/// The word of a status: bits 63 and 62 hold the state (0 Silent, 1 Sum, 2 Prefix), bit 61 the flag, bits 60 to 54 are 0,
/// and bits 53 to 0 hold the value in two's complement; Silent is the word 0. The value must lie from -2^53 to 2^53 - 1.
///
/// So every Silent is below every Sum, and every Sum below every Prefix, as numbers. It takes no memory.
pub fn pack(status: Status<i64>) -> u64
    requires { FitsWord status }
    ensures { result ≡ word_of status }
{
    match status {
        Status::Silent => 0,
        Status::Sum(flag, value) => STATE + rest(flag, value),
        Status::Prefix(flag, value) => 2 * STATE + rest(flag, value),
    }
}

/// The status of a word; none for a word that is no status's. It takes no memory.
pub fn unpack(word: u64) -> Option<Status<i64>>
    ensures { result ≡ read_word word }
{
    if word == 0 {
        return Some(Status::Silent);
    }
    let (flag, value) = unpack_rest(word % STATE)?;
    match word / STATE {
        1 => Some(Status::Sum(flag, value)),
        2 => Some(Status::Prefix(flag, value)),
        _ => None,
    }
}

/// The bits below the state: the flag and the value.
fn rest(flag: bool, value: i64) -> u64
    requires { IsTrue (is_word value) }
    ensures value { result ≡ rest_of flag value }
    ensures below { result < state_place }
{
    let bits = value.cast_unsigned() % VALUES;
    if flag { FLAG + bits } else { bits }
}

/// The flag and the value of the bits below the state; none if a bit between them is 1.
fn unpack_rest(rest: u64) -> Option<(bool, i64)>
    requires { rest < state_place }
    ensures { result ≡ read_rest rest }
{
    let flag = rest >= FLAG;
    let bits = rest % FLAG;
    if bits < VALUES {
        Some((flag, signed(bits)))
    } else {
        None
    }
}

/// The value of 54 bits in two's complement.
fn signed(bits: u64) -> i64
    requires { bits < 2 ^ 54 }
    ensures { result ≡ value_of bits }
{
    if bits < SIGN {
        bits.cast_signed()
    } else {
        bits.cast_signed() - VALUES.cast_signed()
    }
}
