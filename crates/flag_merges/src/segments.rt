//! The merge by flags of each segment. If the counts of all segments fit, it is the merge of the whole vectors.

ghost use Rattle.std.specs.Prelude.{◌≡◌, ◌≤◌, Ok, Err, IfOk, MatchResult, length, map, not, sum};
ghost use Rattle.cvl_base.specs.Limits.{most_places};
ghost use Rattle.cvl_base.specs.Packs.{count_of};
ghost use Rattle.cvl_base.specs.Rooms.{Overwrites, in_room};
ghost use Rattle.flag_merges.specs.Merges.{AreCounts, IsFirstMiscount, are_counts, merged, seg_merge_of};

use crate::merges::write_merged;
use cvl_base::{Fault, FaultNo, check_agree, true_count};
use segdes::SegLengths;

/// Whether there are this many true and false flags.
#[inline]
fn are_counts(flags: &[bool], trues: usize, falses: usize) -> bool
    requires { length flags.now ≤ most_places }
    ensures { result ≡ are_counts flags.now trues falses }
{
    let count = true_count(flags);
    count == trues && flags.len() - count == falses
}

/// `LengthMismatch` at the number of the first segment that has more or fewer true or false flags than it should.
#[inline(never)]
fn check_counts(
    flags: &[bool],
    d: &SegLengths,
    true_d: &SegLengths,
    false_d: &SegLengths,
) -> Result<(), Fault>
    requires total { sum d.now ≡ length flags.now }
    requires count { length d.now ≡ length true_d.now }
    requires false_count { length d.now ≡ length false_d.now }
    requires few { length flags.now ≤ most_places }
    ensures { MatchResult result (λ _. AreCounts flags.now d.now true_d.now false_d.now)
        (λ f. IsFirstMiscount flags.now d.now true_d.now false_d.now f) }
{
    let mut first = 0;
    for s in 0..d.count() {
        let end = first + d.length(s);
        if !are_counts(&flags[first..end], true_d.length(s), false_d.length(s)) {
            return Err(Fault::at(FaultNo::LengthMismatch, s as u32));
        }
        first = end;
    }
    Ok(())
}

/// The faults of the merge of each segment, except the room's.
fn check_segments<T>(
    flags: &[bool],
    d: &SegLengths,
    when_true: &[T],
    true_d: &SegLengths,
    when_false: &[T],
    false_d: &SegLengths,
) -> Result<(), Fault>
    ensures meaning { MatchResult result (λ _. seg_merge_of flags.now d.now when_true.now true_d.now when_false.now false_d.now
        ≡ Ok (merged flags.now when_true.now when_false.now))
        (λ f. seg_merge_of flags.now d.now when_true.now true_d.now when_false.now false_d.now ≡ Err f) }
    ensures true_ones { IfOk result (λ _. count_of flags.now ≡ length when_true.now) }
    ensures false_ones { IfOk result (λ _. count_of (map not flags.now) ≡ length when_false.now) }
{
    d.check_total(flags)?;
    true_d.check_total(when_true)?;
    check_agree(d.count(), true_d.count())?;
    false_d.check_total(when_false)?;
    check_agree(d.count(), false_d.count())?;
    check_counts(flags, d, true_d, false_d)?;
    Ok(())
}

/// The merge of each segment of two vectors by the flags of the segment, in order.
///
/// `LengthMismatch`, without a place, if segments do not add up to their vector, or if the vectors do not have as many segments
/// as the flags; at the number of the first segment that does not have as many true flags as the first vector has elements there,
/// or as many false ones as the second; and without a place if the room is not as long as the flags. After a fault the room is as
/// before.
pub fn seg_merge_by_flags_over<T: Copy>(
    flags: &[bool],
    d: &SegLengths,
    when_true: &[T],
    true_d: &SegLengths,
    when_false: &[T],
    false_d: &SegLengths,
    out: &mut [T],
) -> Result<(), Fault>
    ensures { Overwrites (in_room (length out.old)
        (seg_merge_of flags.now d.now when_true.now true_d.now when_false.now false_d.now)) result out.old out.new }
{
    check_segments(flags, d, when_true, true_d, when_false, false_d)?;
    check_agree(flags.len(), out.len())?;
    write_merged(flags, when_true, when_false, out);
    Ok(())
}
