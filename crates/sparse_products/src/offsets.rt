//! The lengths of rows from their offsets, as compressed sparse rows have them.

ghost use Rattle.std.specs.Prelude.{◌≡◌, ◌+◌, ◌≤◌, ◌-ℤ◌, ◌<ℤ◌, ◌≤ℤ◌, pos, length, IfOk, MatchOption, vec_len};
ghost use Rattle.cvl_base.specs.Gives.{Gives};
ghost use Rattle.cvl_base.specs.Limits.{most_places};
ghost use Rattle.sparse_products.specs.Answers.{lengths_after, none_negative, row_lengths_of};

use cvl_base::{Fault, FaultNo, Refused};
use std::alloc::Allocator;

/// By how much an offset exceeds the one before it, which isn't negative; none if it is less.
#[inline(always)]
fn length_between(before: &i32, offset: &i32) -> Option<i32>
    requires { pos 0 ≤ℤ before.now }
    ensures { MatchOption result (offset.now <ℤ before.now)
        (λ length. (before.now ≤ℤ offset.now) × (length ≡ offset.now -ℤ before.now)) }
{
    if *offset < *before {
        None
    } else {
        Some(*offset - *before)
    }
}

/// By how much each offset exceeds the one before it, of offsets after 0: `NegativeLength` at the first that is less.
fn lengths_after_0<A: Allocator>(alloc: A, offsets: &[i32]) -> Result<Vec<i32, A>, Refused>
    requires { length offsets.now ≤ most_places }
    ensures lengths { Gives (λ lengths. lengths.items) result (none_negative (lengths_after (pos 0) offsets.now)) }
    ensures one_each { IfOk result (λ lengths. vec_len lengths ≡ length offsets.now) }
{
    let mut lengths = Vec::with_capacity(alloc, offsets.len())?;
    let mut before: i32 = 0;
    for (row, offset) in offsets.iter().enumerate() {
        match length_between(&before, offset) {
            None => {
                return Err(Refused::Fault(Fault::at(FaultNo::NegativeLength, row as u32)));
            }
            Some(length) => {
                lengths.push_reserved(length);
                before = *offset;
            }
        }
    }
    Ok(lengths)
}

/// The lengths of the rows between offsets, one fewer than there are offsets: row r has the entries from the one at offset r
/// to the one before offset r + 1. There are at most 2,147,483,648 offsets.
///
/// `LengthMismatch`, without a place, if there is no offset or the first isn't 0; `NegativeLength` at the first row whose offset
/// is above the next one. Whether the last is the number of entries is checked with the lengths. Source: compressed sparse rows.
pub fn row_lengths<A: Allocator>(alloc: A, offsets: &[i32]) -> Result<Vec<i32, A>, Refused>
    requires { length offsets.now ≤ most_places + 1 }
    ensures lengths { Gives (λ lengths. lengths.items) result (row_lengths_of offsets.now) }
    ensures one_fewer { IfOk result (λ lengths. vec_len lengths + 1 ≡ length offsets.now) }
{
    let Some((first, others)) = offsets.split_first() else {
        return Err(Refused::Fault(Fault::new(FaultNo::LengthMismatch)));
    };
    if *first != 0 {
        return Err(Refused::Fault(Fault::new(FaultNo::LengthMismatch)));
    }
    lengths_after_0(alloc, others)
}
