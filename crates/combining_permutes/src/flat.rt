//! Combining permutes into a whole room.

ghost use Rattle.std.specs.Prelude.{◌≤◌, length, map};
ghost use Rattle.std.specs.List.{AllPass};
ghost use Rattle.cvl_base.specs.Limits.{most_places};
ghost use Rattle.cvl_base.specs.Rooms.{Overwrites};
ghost use Rattle.cvl_base.specs.Scans.{bool_join_of, int_join_of};
ghost use Rattle.combining_permutes.specs.CombiningPermutes.{combine_of};

use crate::walks::combine_each;
use cvl_base::{BoolBinary, Fault, IntMonoid, Monoid, by_bool_binary, by_int_monoid, check_agree};
use permute_walks::check_places_alone;
use scan_walks::{Itself, Reading, know_numbers};

/// Joins each element, as it is read, with what stands at the place of the room that its index names: what stands there on the
/// left, and several elements in their order.
///
/// `LengthMismatch`, without a place, where there are more or fewer indices than elements; `IndexOutOfRange` at the first index
/// that is no place of the room. At a fault the room is as it was. The room has at most 2,147,483,647 places, and there are at
/// most as many elements; they and what stands in the room must be items of the monoid. Source: Blelloch's combining send.
pub fn combine_over<M: Monoid, X: Copy, E: Reading<X, M::Item>>(
    source: &[X],
    index: &[i32],
    out: &mut [M::Item],
) -> Result<(), Fault>
    requires in_limit { (length index.now ≤ most_places) × (length out.old ≤ most_places) }
    requires elements { AllPass (λ x. M.is_item (E.item x)) source.now }
    requires items { AllPass M.is_item out.old }
    ensures { Overwrites (combine_of M.join (map E.item source.now) index.now out.old) result out.old out.new }
{
    check_agree(source.len(), index.len())?;
    check_places_alone(index, out.len(), 0)?;
    combine_each::<M, X, E>(source, index, out);
    Ok(())
}

/// Combines integers by one of the seven operators: at each place of the room what stood there, joined with all that are sent
/// there, in their order.
///
/// `LengthMismatch`, without a place, where there are more or fewer indices than integers; `IndexOutOfRange` at the first index
/// that is no place of the room. At a fault the room is as it was. The room has at most 2,147,483,647 places, and there are at
/// most as many integers. Source: Blelloch's combining send.
pub fn int_combine_over(
    op: IntMonoid,
    source: &[i32],
    index: &[i32],
    out: &mut [i32],
) -> Result<(), Fault>
    requires in_limit { (length index.now ≤ most_places) × (length out.old ≤ most_places) }
    ensures { Overwrites (combine_of (int_join_of op) source.now index.now out.old) result out.old out.new }
{
    know_numbers(source);
    know_numbers(out);
    by_int_monoid!(op, combine_over::<_, i32, Itself>(source, index, out))
}

/// The same of booleans, by and, or, or exclusive or.
pub fn bool_combine_over(
    op: BoolBinary,
    source: &[bool],
    index: &[i32],
    out: &mut [bool],
) -> Result<(), Fault>
    requires in_limit { (length index.now ≤ most_places) × (length out.old ≤ most_places) }
    ensures { Overwrites (combine_of (bool_join_of op) source.now index.now out.old) result out.old out.new }
{
    by_bool_binary!(op, combine_over::<_, bool, Itself>(source, index, out))
}
