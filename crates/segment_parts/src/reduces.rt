//! The reduces of the segments that start in a part.

ghost use Rattle.std.specs.Prelude.{◌≡◌, ◌≤◌, [], IsTrue, length, map, sum};
ghost use Rattle.std.specs.List.{AllPass};
ghost use Rattle.cvl_base.specs.Rooms.{Overwrites, in_room};
ghost use Rattle.fresh.specs.Places.{with_items};
ghost use Rattle.range_walks.specs.Ranges.{reduces_of};
ghost use Rattle.segment_parts.specs.Reduces.{but_last, is_part, join_last, part_reduces_of};

use cvl_base::monoid::know_laws;
use cvl_base::{Fault, FaultNo, Monoid, check_agree};
use fresh::{Run, fill_slice};
use range_walks::reduces_into;
use scan_walks::{Reading, sum_from};
use segdes::SegLengths;

/// How many elements the segments have, but for the last one.
fn total_but_last(lengths: &SegLengths) -> usize
    ensures { result ≡ sum (but_last lengths.now) }
{
    match lengths.count() {
        0 => 0,
        n => lengths.total() - lengths.length(n - 1),
    }
}

/// Whether so many elements are the head of a part and the segments of these lengths behind it, of which the last may be longer
/// than the part.
pub fn is_part(head: usize, lengths: &SegLengths, elements: usize) -> bool
    ensures { result ≡ is_part head lengths.now elements }
{
    if head > elements {
        return false;
    }
    let behind_head = elements - head;
    total_but_last(lengths) <= behind_head && behind_head <= lengths.total()
}

/// Writes the reduces of the segments that start in a part of a segmented vector into a room, of the items read from the
/// elements. The first `head` elements go on from a segment that began before the part. Then there are segments with these
/// lengths, the last of which may be longer than what the part has of it; `behind` is what goes on of it behind the part, and is
/// joined to it.
///
/// `LengthMismatch`, without a place, if the room has not one place for each length, if `head` and the lengths but the last are
/// more than the elements, or if `head` and all lengths are fewer; the room is then as before. `behind` and what is read must be
/// items of the monoid. Source: CVL's segmented reduces.
pub fn part_reduces_over<M: Monoid, X: Copy, E: Reading<X, M::Item>>(
    behind: M::Item,
    head: usize,
    lengths: &SegLengths,
    a: &[X],
    out: &mut [M::Item],
) -> Result<(), Fault>
    requires behind { IsTrue (M.is_item behind) }
    requires items { AllPass (λ x. M.is_item (E.item x)) a.now }
    ensures { Overwrites (in_room (length out.old) (part_reduces_of M.join M.unit behind head lengths.now (map E.item a.now)))
        result out.old out.new }
{
    know_laws::<M>();
    if !is_part(head, lengths, a.len()) {
        return Err(Fault::new(FaultNo::LengthMismatch));
    }
    check_agree(lengths.count(), out.len())?;
    let (_front, others) = a.split_at(head);
    fill_slice(
        out,
        |run: Run<M::Item>| -> Run<M::Item>
            requires { (run.items ≡ []) × (run.room ≡ length lengths.now) × (sum (but_last lengths.now) ≤ length others.now)
                × (length others.now ≤ sum lengths.now) × IsTrue (M.is_item behind)
                × AllPass (λ x. M.is_item (E.item x)) others.now }
            ensures { result ≡ with_items run (join_last M.join
                (reduces_of M.join M.unit lengths.entry.now (map E.item others.entry.now)) behind) }
        { reduces_onto::<M, X, E>(run, lengths, others, behind) },
    );
    Ok(())
}

/// Writes the reduces of the segments with these lengths, the last of which has all elements that are left and is joined with
/// what goes on behind them.
fn reduces_onto<M: Monoid, X: Copy, E: Reading<X, M::Item>>(
    run: Run<M::Item>,
    lengths: &SegLengths,
    a: &[X],
    behind: M::Item,
) -> Run<M::Item>
    requires behind { IsTrue (M.is_item behind) }
    requires items { AllPass (λ x. M.is_item (E.item x)) a.now }
    requires covered { sum (but_last lengths.now) ≤ length a.now }
    requires all { length a.now ≤ sum lengths.now }
    requires room { length lengths.now ≤ run.room }
    ensures { result ≡ with_items run (join_last M.join (reduces_of M.join M.unit lengths.now (map E.item a.now)) behind) }
{
    know_laws::<M>();
    let Some((_last, whole)) = lengths.lengths().split_last() else {
        return run;
    };
    let (_segments, left) = a.split_at(total_but_last(lengths));
    let mut run = reduces_into::<M, X, E>(run, whole, a);
    run.push(M::join(sum_from::<M, X, E>(M::unit(), left), behind));
    run
}
