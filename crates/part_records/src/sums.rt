//! Sums in 64 bits that the parts told.

ghost use Rattle.std.specs.Prelude.{◌≡◌, Ok, length};
ghost use Rattle.cvl_base.specs.Rooms.{Overwrites, in_room};
ghost use Rattle.part_records.specs.Carries.{carried_total_of, carries_of, long_total_of};

use cvl_base::{Binary, Fault, FaultNo, check_agree};
use long_sums::LongSum;
use scan_walks::fitting;

/// Writes what stands before each part: the sum of those of the parts before it, in 64 bits. `LengthMismatch`, without a place,
/// if the room does not have a place for each part.
///
/// The sums of as many integers as a vector has do not wrap. Source: Blelloch's scan of the sums of parts.
pub fn carries(sums: &[i64], out: &mut [i64]) -> Result<(), Fault>
    ensures { Overwrites (in_room (length out.old) (Ok (carries_of sums.now))) result out.old out.new }
{
    check_agree(sums.len(), out.len())?;
    write_carries(sums, out);
    Ok(())
}

/// Writes the sums of those before each one into a room that is as long.
#[inline(never)]
fn write_carries(sums: &[i64], out: &mut [i64])
    requires { length sums.now ≡ length out.old }
    ensures { out.new ≡ carries_of sums.now }
{
    let mut so_far = 0;
    for k in 0..sums.len() {
        out[k] = so_far;
        so_far = LongSum::apply(so_far, sums[k]);
    }
}

/// What the sums of all parts add up to, if it fits 32 bits, else `Overflow` at 0.
pub fn carried_total(sums: &[i64]) -> Result<i32, Fault>
    ensures { result ≡ carried_total_of sums.now }
{
    match fitting(&total(sums)) {
        Some(sum) => Ok(sum),
        None => Err(Fault::at(FaultNo::Overflow, 0)),
    }
}

/// The sum in 64 bits.
fn total(sums: &[i64]) -> i64
    ensures { result ≡ long_total_of sums.now }
{
    let mut so_far = 0;
    for sum in sums {
        so_far = LongSum::apply(so_far, *sum);
    }
    so_far
}
