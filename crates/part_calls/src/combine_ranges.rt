//! Combining permutes by ranges of their room. Each range has its own caller, who reads all indices. If the counts of all ranges
//! add up to the number of indices, no index is out of range, and the ranges in order are the combining permute. Otherwise an
//! index is out of range, which the plain call reports.

ghost use Rattle.std.specs.Prelude.{length};
ghost use Rattle.cvl_base.specs.Scans.{bool_join_of, int_join_of};
ghost use Rattle.part_calls.specs.CombineRanges.{combine_range_of, counts_range_of, exact_range_of};
ghost use Rattle.part_calls.specs.CountedRanges.{WritesCounted};

use crate::limits::{check_end, check_few};
use combining_permutes::{bool_combine_range, counts_range, int_combine_range};
use cvl_base::{BoolBinary, Fault, IntMonoid, check_agree};
use exact_combines::exact_sums_range;
use long_sums::check_growing;

/// One range of a combining permute of integers, from place `lowest` of the room on: joins what stands at each place of it with
/// the integers sent there, and returns how many indices name a place of it. The room has the range's length.
///
/// `TooLong`, without a place, if there are more than 2,147,483,647 indices or the range ends beyond that many places;
/// `LengthMismatch`, without a place, if there are not as many integers as indices. After a fault the room is as before.
pub fn int_combine_range_checked(
    op: IntMonoid,
    source: &[i32],
    index: &[i32],
    lowest: usize,
    out: &mut [i32],
) -> Result<usize, Fault>
    ensures { WritesCounted (combine_range_of (int_join_of op) source.now index.now lowest out.old) result out.old out.new }
{
    check_few(index.len())?;
    check_end(lowest, out.len())?;
    check_agree(source.len(), index.len())?;
    Ok(int_combine_range(op, source, index, lowest, out))
}

/// The same for booleans, by and, or, or exclusive or.
pub fn bool_combine_range_checked(
    op: BoolBinary,
    source: &[bool],
    index: &[i32],
    lowest: usize,
    out: &mut [bool],
) -> Result<usize, Fault>
    ensures { WritesCounted (combine_range_of (bool_join_of op) source.now index.now lowest out.old) result out.old out.new }
{
    check_few(index.len())?;
    check_end(lowest, out.len())?;
    check_agree(source.len(), index.len())?;
    Ok(bool_combine_range(op, source, index, lowest, out))
}

/// How many indices name each place of one range, from place `lowest` on; returns how many name it. The room has the range's
/// length.
///
/// `TooLong`, without a place, if there are more than 2,147,483,647 indices or the range ends beyond that many places.
pub fn counts_range_checked(index: &[i32], lowest: usize, out: &mut [i32]) -> Result<usize, Fault>
    ensures { WritesCounted (counts_range_of index.now lowest (length out.old)) result out.old out.new }
{
    check_few(index.len())?;
    check_end(lowest, out.len())?;
    Ok(counts_range(index, lowest, out))
}

/// One range of a combining permute into sums of 64 bits, from place `lowest` of the room on: adds to each sum the integers sent
/// to it, and returns how many indices name a place of the range. The room has the range's length.
///
/// `TooLong`, without a place, if there are more than 2,147,483,647 indices or the range ends beyond that many places; `Overflow`
/// at the first place of the whole room whose sum was below -2^62, or 2^62 or more; `LengthMismatch`, without a place, if there
/// are not as many integers as indices. After a fault the room is as before.
pub fn exact_sums_range_checked(
    source: &[i32],
    index: &[i32],
    lowest: usize,
    out: &mut [i64],
) -> Result<usize, Fault>
    ensures { WritesCounted (exact_range_of source.now index.now lowest out.old) result out.old out.new }
{
    check_few(index.len())?;
    check_end(lowest, out.len())?;
    check_growing(out, lowest)?;
    check_agree(source.len(), index.len())?;
    Ok(exact_sums_range(source, index, lowest, out))
}
