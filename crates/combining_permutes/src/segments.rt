//! Combining permutes of each segment, of which an index counts from the start of its segment of the room. Both walks go through
//! the segments in turn, the second only where the first found no fault.

ghost use Rattle.std.specs.Prelude.{◌≡◌, ◌≤◌, length, map, sum};
ghost use Rattle.std.specs.List.{AllPass};
ghost use Rattle.cvl_base.specs.Limits.{most_places};
ghost use Rattle.cvl_base.specs.Rooms.{Overwrites};
ghost use Rattle.cvl_base.specs.Scans.{bool_join_of, int_join_of};
ghost use Rattle.combining_permutes.specs.CombiningPermutes.{seg_combine_of};
ghost use Rattle.combining_permutes.specs.Walks.{combined_by, outside_by};
ghost use Rattle.permute_walks.specs.Senders.{fault_told};

use crate::walks::combine_each;
use cvl_base::{BoolBinary, Fault, IntMonoid, Monoid, by_bool_binary, by_int_monoid, check_agree};
use permute_walks::check_places_alone;
use scan_walks::{Itself, Reading, know_numbers};
use segdes::SegLengths;

/// `IndexOutOfRange` at the first index that is no place of its segment of the room.
pub(crate) fn check_segments(
    index: &[i32],
    d: &SegLengths,
    room_d: &SegLengths,
) -> Result<(), Fault>
    requires total { sum d.now ≡ length index.now }
    requires count { length d.now ≡ length room_d.now }
    requires in_limit { length index.now ≤ most_places }
    ensures { fault_told result ≡ outside_by 0 d.now room_d.now index.now }
{
    let mut first = 0;
    for s in 0..d.count() {
        let next = first + d.length(s);
        check_places_alone(&index[first..next], room_d.length(s), first)?;
        first = next;
    }
    Ok(())
}

/// Joins the elements of each segment with what stands in its segment of the room, one segment after another.
pub(crate) fn join_segments<M: Monoid, X: Copy, E: Reading<X, M::Item>>(
    source: &[X],
    index: &[i32],
    d: &SegLengths,
    room_d: &SegLengths,
    out: &mut [M::Item],
)
    requires total { sum d.now ≡ length index.now }
    requires as_long { length source.now ≡ length index.now }
    requires count { length d.now ≡ length room_d.now }
    requires room { sum room_d.now ≡ length out.old }
    requires in_limit { (length index.now ≤ most_places) × (length out.old ≤ most_places) }
    requires elements { AllPass (λ x. M.is_item (E.item x)) source.now }
    requires items { AllPass M.is_item out.old }
    ensures { out.new ≡ combined_by M.join d.now room_d.now index.now (map E.item source.now) out.old }
{
    let (mut first, mut start) = (0, 0);
    for s in 0..d.count() {
        let next = first + d.length(s);
        let end = start + room_d.length(s);
        combine_each::<M, X, E>(
            &source[first..next],
            &index[first..next],
            &mut out[start..end],
        );
        first = next;
        start = end;
    }
}

/// Combines each segment: joins each element, as it is read, with what stands at the place that its index names in the same
/// segment of the room, counted from the start of that: what stands there on the left, and several elements in their order.
///
/// `LengthMismatch`, without a place, where there are not as many indices as elements, the segments do not add up to them or
/// those of the room to the room, or there are not as many of each; else `IndexOutOfRange` at the first index that is no place of
/// its segment of the room. At a fault the room is as it was. The elements and what stands in the room must be items of the
/// monoid. Source: Blelloch's combining send, CVL's segmented permutes.
pub fn seg_combine_over<M: Monoid, X: Copy, E: Reading<X, M::Item>>(
    source: &[X],
    index: &[i32],
    d: &SegLengths,
    room_d: &SegLengths,
    out: &mut [M::Item],
) -> Result<(), Fault>
    requires elements { AllPass (λ x. M.is_item (E.item x)) source.now }
    requires items { AllPass M.is_item out.old }
    ensures { Overwrites (seg_combine_of M.join (map E.item source.now) index.now d.now room_d.now out.old)
        result out.old out.new }
{
    check_agree(d.total(), source.len())?;
    check_agree(d.total(), index.len())?;
    check_agree(room_d.total(), out.len())?;
    check_agree(d.count(), room_d.count())?;
    check_segments(index, d, room_d)?;
    join_segments::<M, X, E>(source, index, d, room_d, out);
    Ok(())
}

/// Combines the integers of each segment by one of the seven operators, with the faults of [`seg_combine_over`].
pub fn seg_int_combine_over(
    op: IntMonoid,
    source: &[i32],
    index: &[i32],
    d: &SegLengths,
    room_d: &SegLengths,
    out: &mut [i32],
) -> Result<(), Fault>
    ensures { Overwrites (seg_combine_of (int_join_of op) source.now index.now d.now room_d.now out.old) result out.old out.new }
{
    know_numbers(source);
    know_numbers(out);
    by_int_monoid!(
        op,
        seg_combine_over::<_, i32, Itself>(source, index, d, room_d, out)
    )
}

/// The same of booleans, by and, or, or exclusive or.
pub fn seg_bool_combine_over(
    op: BoolBinary,
    source: &[bool],
    index: &[i32],
    d: &SegLengths,
    room_d: &SegLengths,
    out: &mut [bool],
) -> Result<(), Fault>
    ensures { Overwrites (seg_combine_of (bool_join_of op) source.now index.now d.now room_d.now out.old) result out.old out.new }
{
    by_bool_binary!(
        op,
        seg_combine_over::<_, bool, Itself>(source, index, d, room_d, out)
    )
}
