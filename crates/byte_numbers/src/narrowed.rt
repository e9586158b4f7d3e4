//! Integers narrowed to bytes. The first walk checks that each is a byte, and the second writes them.

ghost use Rattle.std.specs.Prelude.{◌≡◌, ◌≤◌, Ok, Err, IfOk, MatchResult, length, map, true, unsigned_abs};
ghost use Rattle.byte_numbers.specs.Bytes.{AreBytes, bytes_from_ints_of, is_byte};
ghost use Rattle.cvl_base.specs.Limits.{most_places};
ghost use Rattle.cvl_base.specs.Rooms.{Overwrites, in_room};

use cvl_base::{Fault, FaultNo, check_agree};

/// Whether a number is a byte.
#[inline]
fn is_byte(number: &i32) -> bool
    ensures { result ≡ is_byte number.now }
{
    *number >= 0 && *number < 256
}

/// A number that is a byte, as one.
#[inline]
fn as_byte(number: &i32) -> u8
    requires { is_byte number.now ≡ true }
    ensures { result ≡ unsigned_abs number.now }
{
    *number as u8
}

/// `Overflow` at the first number that is no byte. There are at most 2,147,483,647 numbers.
#[inline(never)]
pub fn check_bytes(a: &[i32]) -> Result<(), Fault>
    requires few { length a.now ≤ most_places }
    ensures meaning { MatchResult result (λ _. bytes_from_ints_of a.now ≡ Ok (map unsigned_abs a.now))
        (λ f. bytes_from_ints_of a.now ≡ Err f) }
    ensures bytes { IfOk result (λ _. AreBytes a.now) }
{
    for k in 0..a.len() {
        if !is_byte(&a[k]) {
            return Err(Fault::at(FaultNo::Overflow, k as u32));
        }
    }
    Ok(())
}

/// Writes numbers that are bytes.
#[inline(never)]
pub fn write_bytes(a: &[i32], out: &mut [u8])
    requires bytes { AreBytes a.now }
    requires as_long { length a.now ≡ length out.old }
    ensures { out.new ≡ map unsigned_abs a.now }
{
    for k in 0..a.len() {
        out[k] = as_byte(&a[k]);
    }
}

/// Each integer as a byte.
///
/// There are at most 2,147,483,647 integers. `Overflow` at the first that is negative or above 255; `LengthMismatch`, without a
/// place, if the room is not as long as the integers. After a fault the room is as before.
pub fn bytes_from_ints_over(a: &[i32], out: &mut [u8]) -> Result<(), Fault>
    requires few { length a.now ≤ most_places }
    ensures { Overwrites (in_room (length out.old) (bytes_from_ints_of a.now)) result out.old out.new }
{
    check_bytes(a)?;
    check_agree(a.len(), out.len())?;
    write_bytes(a, out);
    Ok(())
}
