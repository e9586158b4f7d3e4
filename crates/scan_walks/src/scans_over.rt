//! Scans and reduces into the caller's room, on the calling thread. They take no memory.

ghost use Rattle.std.specs.Prelude.{◌≡◌, ◌≤◌, IsTrue, Ok, [], length, map, sum, unsigned_abs};
ghost use Rattle.std.specs.List.{AllPass};
ghost use Rattle.cvl_base.specs.Descriptors.{AreLengthsWithin};
ghost use Rattle.cvl_base.specs.Folds.{scan_of};
ghost use Rattle.cvl_base.specs.Limits.{most_places};
ghost use Rattle.cvl_base.specs.Rooms.{Overwrites, in_room};
ghost use Rattle.cvl_base.specs.SegmentedCalls.{seg_reduce_of, seg_scan_of};
ghost use Rattle.fresh.specs.Places.{with_items};
ghost use Rattle.range_walks.specs.Ranges.{reduces_of, scans_of};

use cvl_base::monoid::know_laws;
use cvl_base::{Fault, Monoid, check_agree};
use fresh::{Run, fill_slice};
use range_walks::{Itself, Reading, reduces_into, scan_into, scans_into};
use segdes::SegLengths;

/// Writes the exclusive scan into a room: at each place `before`, joined from left to right with the elements before it.
/// `LengthMismatch`, without a place, if the room is not as long.
///
/// `before` and the elements must be items of the monoid. Source: Blelloch's prescan.
pub fn scan_over<M: Monoid>(
    before: M::Item,
    a: &[M::Item],
    out: &mut [M::Item],
) -> Result<(), Fault>
    requires before { IsTrue (M.is_item before) }
    requires items { AllPass M.is_item a.now }
    requires in_limit { length a.now ≤ most_places }
    ensures { Overwrites (in_room (length out.old) (Ok (scan_of M.join before a.now))) result out.old out.new }
{
    know_laws::<M>();
    check_agree(a.len(), out.len())?;
    fill_slice(
        out,
        |run: Run<M::Item>| -> Run<M::Item>
            requires { (run.items ≡ []) × (run.room ≡ length a.now) × AllPass M.is_item a.now × IsTrue (M.is_item before) }
            ensures { result ≡ with_items run (scan_of M.join before a.entry.now) }
        { scan_into::<M, M::Item, Itself>(run, before, a) },
    );
    Ok(())
}

/// Writes the exclusive scan of each segment into a room: at each place the elements before it in its segment, joined from left
/// to right, and the unit where a segment starts. `LengthMismatch`, without a place, if the segments' total is not the number of
/// elements, or the room is not as long.
///
/// The elements must be items of the monoid. Source: Blelloch's segmented scans.
pub fn seg_scan_over<M: Monoid>(
    a: &[M::Item],
    d: &SegLengths,
    out: &mut [M::Item],
) -> Result<(), Fault>
    requires items { AllPass M.is_item a.now }
    ensures { Overwrites (in_room (length out.old) (seg_scan_of M.join M.unit a.now d.now)) result out.old out.new }
{
    know_laws::<M>();
    d.check_total(a)?;
    check_agree(a.len(), out.len())?;
    let lengths = d.lengths();
    fill_slice(
        out,
        |run: Run<M::Item>| -> Run<M::Item>
            requires { (run.items ≡ []) × (run.room ≡ length a.now) × AreLengthsWithin most_places lengths.now
                × (length a.now ≡ sum (map unsigned_abs lengths.now)) × AllPass M.is_item a.now }
            ensures { result ≡ with_items run (scans_of M.join M.unit (map unsigned_abs lengths.entry.now) a.entry.now) }
        { scans_into::<M, M::Item, Itself>(run, lengths, a) },
    );
    Ok(())
}

/// Writes into a room each segment's elements joined from left to right, and the unit if it is empty. `LengthMismatch`, without a
/// place, if the segments' total is not the number of elements, or the room hasn't one place for each segment.
///
/// The elements must be items of the monoid. Source: CVL's segmented reduces.
pub fn seg_reduce_over<M: Monoid>(
    a: &[M::Item],
    d: &SegLengths,
    out: &mut [M::Item],
) -> Result<(), Fault>
    requires items { AllPass M.is_item a.now }
    ensures { Overwrites (in_room (length out.old) (seg_reduce_of M.join M.unit a.now d.now)) result out.old out.new }
{
    seg_reduce_readings_over::<M, M::Item, Itself>(a, d, out)
}

/// [`seg_reduce_over`] of the items read from the elements, which must be items of the monoid.
pub fn seg_reduce_readings_over<M: Monoid, X: Copy, E: Reading<X, M::Item>>(
    a: &[X],
    d: &SegLengths,
    out: &mut [M::Item],
) -> Result<(), Fault>
    requires items { AllPass (λ x. M.is_item (E.item x)) a.now }
    ensures { Overwrites (in_room (length out.old) (seg_reduce_of M.join M.unit (map E.item a.now) d.now))
        result out.old out.new }
{
    know_laws::<M>();
    d.check_total(a)?;
    check_agree(d.count(), out.len())?;
    let lengths = d.lengths();
    fill_slice(
        out,
        |run: Run<M::Item>| -> Run<M::Item>
            requires { (run.items ≡ []) × (run.room ≡ length lengths.now) × AreLengthsWithin most_places lengths.now
                × (sum (map unsigned_abs lengths.now) ≡ length a.now) × AllPass (λ x. M.is_item (E.item x)) a.now }
            ensures { result ≡ with_items run (reduces_of M.join M.unit (map unsigned_abs lengths.entry.now)
                (map E.item a.entry.now)) }
        { reduces_into::<M, X, E>(run, lengths, a) },
    );
    Ok(())
}
