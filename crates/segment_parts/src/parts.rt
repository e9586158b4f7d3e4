//! The scan of a part.

ghost use Rattle.std.specs.Prelude.{◌≡◌, ◌+◌, ◌<◌, ◌≤◌, IsTrue, MatchResult, length, sum};
ghost use Rattle.std.specs.List.{AllPass};
ghost use Rattle.cvl_base.specs.Faults.{fault};
ghost use Rattle.cvl_base.specs.Limits.{most_places};
ghost use Rattle.cvl_base.specs.Rooms.{Overwrites, in_room};
ghost use Rattle.cvl_base.specs.declared.fault.FaultNo.TheVariants as no;
ghost use Rattle.segment_parts.specs.Parts.{part_scan_of};

use cvl_base::monoid::know_laws;
use cvl_base::{Fault, FaultNo, Monoid, check_agree};
use scan_walks::{scan_in, scan_over, seg_scan_in, seg_scan_over};
use segdes::SegLengths;

/// Checks that so many elements and the segments behind them are no more than the part's elements, else `LengthMismatch`, without
/// a place.
pub(crate) fn check_fits<T>(head: usize, lengths: &SegLengths, a: &[T]) -> Result<(), Fault>
    ensures { MatchResult result (λ _. head + sum lengths.now ≤ length a.now)
        (λ f. (f ≡ fault no.LengthMismatch) × (length a.now < head + sum lengths.now)) }
{
    if head > a.len() || lengths.total() > a.len() - head {
        return Err(Fault::new(FaultNo::LengthMismatch));
    }
    Ok(())
}

/// Writes the exclusive scan of a part of a segmented vector into a room. The first `head` elements go on from a segment that
/// began before the part: they are scanned after `before`, which that segment's elements before the part join to. Then there are
/// whole segments with these lengths, each scanned from the unit on, and so are the elements that are left, with which another
/// segment begins.
///
/// `LengthMismatch`, without a place, if `head` and the lengths are more than the elements, or the room is not as long as the
/// part; the room is then as before. `before` and the elements must be items of the monoid, and the part has at most
/// 2,147,483,647 elements. Source: Blelloch's segmented scans.
pub fn part_scan_over<M: Monoid>(
    before: M::Item,
    head: usize,
    lengths: &SegLengths,
    a: &[M::Item],
    out: &mut [M::Item],
) -> Result<(), Fault>
    requires before { IsTrue (M.is_item before) }
    requires items { AllPass M.is_item a.now }
    requires in_limit { length a.now ≤ most_places }
    ensures { Overwrites (in_room (length out.old) (part_scan_of M.join M.unit before head lengths.now a.now))
        result out.old out.new }
{
    know_laws::<M>();
    check_fits(head, lengths, a)?;
    check_agree(a.len(), out.len())?;
    let (front, others) = a.split_at(head);
    let (whole, behind) = others.split_at(lengths.total());
    let (front_room, others_room) = out.split_at_mut(head);
    let (whole_room, behind_room) = others_room.split_at_mut(lengths.total());
    scan_over::<M>(before, front, front_room)?;
    seg_scan_over::<M>(whole, lengths, whole_room)?;
    scan_over::<M>(M::unit(), behind, behind_room)
}

/// [`part_scan_over`] over the part itself: the scan overwrites its elements.
///
/// `LengthMismatch`, without a place, if `head` and the lengths are more than the elements, which are then as before. `before`
/// and the elements must be items of the monoid. Source: Blelloch's segmented scans.
pub fn part_scan_in<M: Monoid>(
    before: M::Item,
    head: usize,
    lengths: &SegLengths,
    a: &mut [M::Item],
) -> Result<(), Fault>
    requires before { IsTrue (M.is_item before) }
    requires items { AllPass M.is_item a.old }
    ensures { Overwrites (part_scan_of M.join M.unit before head lengths.now a.old) result a.old a.new }
{
    know_laws::<M>();
    check_fits(head, lengths, a)?;
    let (front, others) = a.split_at_mut(head);
    let (whole, behind) = others.split_at_mut(lengths.total());
    scan_in::<M>(before, front);
    scan_in::<M>(M::unit(), behind);
    seg_scan_in::<M>(whole, lengths)
}
