//! Sums of a whole room: checked, widened and narrowed.

ghost use Rattle.std.specs.Prelude.{◌≡◌, ◌+◌, ◌≤◌, Ok, Err, IfOk, MatchResult, length, true};
ghost use Rattle.std.specs.List.{AllPass};
ghost use Rattle.cvl_base.specs.ItemWords.{is_number};
ghost use Rattle.cvl_base.specs.Limits.{most_places};
ghost use Rattle.cvl_base.specs.Rooms.{Overwrites, in_room};
ghost use Rattle.long_sums.specs.RoomSums.{all_fitting, all_growing};
ghost use Rattle.long_sums.specs.LongSums.{may_grow};

use cvl_base::{Fault, FaultNo, check_agree};

/// The greatest sum that may grow.
const GREATEST: i64 = 0x3FFF_FFFF_FFFF_FFFF;

/// The least sum that may grow.
const LEAST: i64 = -0x4000_0000_0000_0000;

/// Whether any 2,147,483,647 integers of 32 bits may be added to a sum.
#[inline]
fn may_grow(sum: &i64) -> bool
    ensures { result ≡ may_grow sum.now }
{
    *sum >= LEAST && *sum <= GREATEST
}

/// Whether a sum fits 32 bits.
#[inline]
fn fits(sum: &i64) -> bool
    ensures { result ≡ is_number sum.now }
{
    *sum >= -0x8000_0000 && *sum < 0x8000_0000
}

/// `Overflow` at the first sum of a room that is below -2^62, or 2^62 or more: 2,147,483,647 integers of 32 bits could leave 64
/// bits from there. The first sum stands at place `first`.
#[inline(never)]
pub fn check_growing(sums: &[i64], first: usize) -> Result<(), Fault>
    requires within { first + length sums.now ≤ most_places }
    ensures meaning { MatchResult result (λ _. all_growing first sums.now ≡ Ok sums.now)
        (λ f. all_growing first sums.now ≡ Err f) }
    ensures growing { IfOk result (λ _. AllPass may_grow sums.now) }
{
    for k in 0..sums.len() {
        if !may_grow(&sums[k]) {
            return Err(Fault::at(FaultNo::Overflow, (first + k) as u32));
        }
    }
    Ok(())
}

/// `Overflow` at the first sum that does not fit 32 bits. The first sum stands at place `first`.
#[inline(never)]
pub fn check_fitting(sums: &[i64], first: usize) -> Result<(), Fault>
    requires within { first + length sums.now ≤ most_places }
    ensures meaning { MatchResult result (λ _. all_fitting first sums.now ≡ Ok sums.now)
        (λ f. all_fitting first sums.now ≡ Err f) }
    ensures fitting { IfOk result (λ _. AllPass is_number sums.now) }
{
    for k in 0..sums.len() {
        if !fits(&sums[k]) {
            return Err(Fault::at(FaultNo::Overflow, (first + k) as u32));
        }
    }
    Ok(())
}

/// A sum that fits 32 bits, as an integer.
#[inline]
fn narrowed(sum: &i64) -> i32
    requires { is_number sum.now ≡ true }
    ensures { result ≡ sum.now }
{
    *sum as i32
}

/// Writes sums that fit 32 bits.
#[inline(never)]
pub fn write_ints(sums: &[i64], out: &mut [i32])
    requires fitting { AllPass is_number sums.now }
    requires as_long { length sums.now ≡ length out.old }
    ensures { out.new ≡ sums.now }
{
    for k in 0..sums.len() {
        out[k] = narrowed(&sums[k]);
    }
}

/// Each sum as an integer.
///
/// There are at most 2,147,483,647. `Overflow` at the first that does not fit 32 bits; `LengthMismatch`, without a place, if the
/// room is not as long as the sums. After a fault the room is as before.
pub fn ints_from_sums_over(sums: &[i64], out: &mut [i32]) -> Result<(), Fault>
    requires few { length sums.now ≤ most_places }
    ensures { Overwrites (in_room (length out.old) (all_fitting 0 sums.now)) result out.old out.new }
{
    check_fitting(sums, 0)?;
    check_agree(sums.len(), out.len())?;
    write_ints(sums, out);
    Ok(())
}

/// Writes each integer as a sum.
#[inline(never)]
pub fn write_sums(a: &[i32], out: &mut [i64])
    requires { length a.now ≡ length out.old }
    ensures { out.new ≡ a.now }
{
    for k in 0..a.len() {
        out[k] = i64::from(a[k]);
    }
}

/// Each integer as a sum.
///
/// `LengthMismatch`, without a place, if the room is not as long as the integers; it is then as before.
pub fn sums_from_ints_over(a: &[i32], out: &mut [i64]) -> Result<(), Fault>
    ensures { Overwrites (in_room (length out.old) (Ok a.now)) result out.old out.new }
{
    check_agree(a.len(), out.len())?;
    write_sums(a, out);
    Ok(())
}
