//! Sums that never wrap, of one part of a vector: its sum in 64 bits, and its scan after the sum of what stands before it.

ghost use Rattle.std.specs.Prelude.{◌≡◌, Ok, length};
ghost use Rattle.cvl_base.specs.Exact.{total_of};
ghost use Rattle.cvl_base.specs.Rooms.{Overwrites, in_room};
ghost use Rattle.part_calls.specs.Limits.{few_enough};
ghost use Rattle.part_calls.specs.Sums.{checked_scan_after};

use crate::limits::check_few;
use cvl_base::monoids::Add;
use cvl_base::{Fault, FaultNo};
use scan_walks::{fitting, fitting_of_scan, know_numbers, scan_over, total};

/// The sum of the integers. It fits 63 bits.
pub fn exact_sum(a: &[i32]) -> Result<i64, Fault>
    ensures { result ≡ few_enough (length a.now) (Ok (total_of a.now)) }
{
    check_few(a.len())?;
    Ok(total(a))
}

/// At each place `before` plus the integers before the place. `Overflow` at the first sum that doesn't fit 32 bits.
pub fn checked_scan_from(before: &i64, a: &[i32], out: &mut [i32]) -> Result<(), Fault>
    ensures { Overwrites (in_room (length out.old) (few_enough (length a.now) (checked_scan_after before.now a.now)))
        result out.old out.new }
{
    check_few(a.len())?;
    let front = fitting_of_scan(*before, a);
    if front < a.len() {
        return Err(Fault::at(FaultNo::Overflow, front as u32));
    }
    // all results fit, so that the scan that wraps doesn't; if there are none it may start from any number
    let start = fitting(before).unwrap_or(0);
    know_numbers(&[start]);
    know_numbers(a);
    scan_over::<Add>(start, a, out)
}
