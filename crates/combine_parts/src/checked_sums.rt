//! Sums that have to fit 32 bits, of one share of a call's room. They are made in 64 bits, in memory of the call's own, and the
//! answer says whether all of them fit.

ghost use Rattle.std.specs.Prelude.{◌≡◌, ◌+◌, ◌<◌, ◌≤◌, length, MatchResult};
ghost use Rattle.std.specs.List.{AllPass};
ghost use Rattle.combine_parts.specs.CheckedSums.{all_fit, range_sums_of, share_sums_of, sums_or};
ghost use Rattle.cvl_base.specs.declared.fault.FaultNo.TheVariants as no;
ghost use Rattle.cvl_base.specs.Faults.{fault};
ghost use Rattle.cvl_base.specs.Limits.{most_places};
ghost use Rattle.long_sums.specs.LongSums.{may_grow};

use crate::own_rooms::check_few;
use crate::room_joins::{check_rooms, join_rooms, starts_of};
use cvl_base::limits::MOST_PLACES;
use cvl_base::{Fault, FaultNo, check_agree};
use exact_combines::exact_sums_range;
use long_sums::{LongSum, check_fitting, write_sums};
use scan_walks::know_numbers;

/// Writes what stood in a share of a call's room, its places from `from` on, plus the sums of all parts there.
///
/// `TooLong`, without a place, if there are more than 2,147,483,647 sums; `LengthMismatch`, without a place, if the share has not
/// as many places as there are sums, or some of these places do not lie in the memory of the parts' rooms; the sums are then as
/// before. `Overflow` at the first sum of the share that does not fit 32 bits; the sums stand there all the same. Source:
/// Blelloch's combining send, over whole numbers.
pub fn share_sums(
    from: usize,
    boundaries: &[usize],
    memory: &[i64],
    before: &[i32],
    sums: &mut [i64],
) -> Result<(), Fault>
    ensures answer { result ≡ all_fit (share_sums_of from boundaries.now memory.now before.now (length sums.old)) }
    ensures sums { sums.new ≡ sums_or sums.old (share_sums_of from boundaries.now memory.now before.now (length sums.old)) }
{
    check_few(sums.len())?;
    check_agree(before.len(), sums.len())?;
    let starts = starts_of(boundaries);
    check_rooms(memory.len(), from, before.len(), starts)?;
    write_sums(before, sums);
    join_rooms::<LongSum, i64>(from, starts, memory, sums);
    check_fitting(sums, 0)
}

/// Checks that `count` places from `from` on are among the first 2,147,483,647, else `TooLong`, without a place.
fn check_end(from: usize, count: usize) -> Result<(), Fault>
    ensures { MatchResult result (λ _. from + count ≤ most_places)
        (λ f. (f ≡ fault no.TooLong) × (most_places < from + count)) }
{
    check_few(from)?;
    if count > MOST_PLACES - from {
        return Err(Fault::new(FaultNo::TooLong));
    }
    Ok(())
}

/// Writes integers as sums, which may grow.
fn widen(before: &[i32], sums: &mut [i64])
    requires { length before.now ≡ length sums.old }
    ensures same { sums.new ≡ before.now }
    ensures growing { AllPass may_grow sums.new }
{
    know_numbers(before);
    write_sums(before, sums);
}

/// Writes what stood in a range of a call's room, its places from `from` on, plus the integers that are sent there.
///
/// `TooLong`, without a place, if there are more than 2,147,483,647 indices or the range ends beyond that many places;
/// `LengthMismatch`, without a place, if there are not as many integers as indices, or not as many sums as places of the range;
/// the sums are then as before. `Overflow` at the first sum of the range that does not fit 32 bits; the sums stand there all the
/// same. Source: Blelloch's combining send, over whole numbers.
pub fn range_sums(
    from: usize,
    source: &[i32],
    index: &[i32],
    before: &[i32],
    sums: &mut [i64],
) -> Result<(), Fault>
    ensures answer { result ≡ all_fit (range_sums_of source.now index.now from before.now (length sums.old)) }
    ensures sums { sums.new ≡ sums_or sums.old (range_sums_of source.now index.now from before.now (length sums.old)) }
{
    check_few(index.len())?;
    check_end(from, sums.len())?;
    check_agree(source.len(), index.len())?;
    check_agree(before.len(), sums.len())?;
    widen(before, sums);
    exact_sums_range(source, index, from, sums);
    check_fitting(sums, 0)
}
