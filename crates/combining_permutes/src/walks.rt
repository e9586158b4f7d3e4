//! The walk that joins: it goes through the elements in their order, and joins each with what stands at the place that its index
//! names.

ghost use Rattle.std.specs.Prelude.{◌≡◌, ◌+◌, ◌≤◌, ℕ, pos, Some, false, length, map};
ghost use Rattle.std.specs.List.{AllPass, zip};
ghost use Rattle.cvl_base.specs.Limits.{most_places};
ghost use Rattle.combining_permutes.specs.CombiningPermutes.{combined};
ghost use Rattle.permute_walks.specs.Senders.{is_between};

use cvl_base::Monoid;
use cvl_base::monoid::know_laws;
use scan_walks::Reading;

/// The place that an index names; if it is below 0, a place behind the longest vector.
// So one comparison is enough.
#[inline]
fn place_named(index: &i32) -> u32
    ensures inside { (places : ℕ) → places ≤ most_places → result + 1 ≤ places → index.now ≡ pos result }
    ensures outside { (places : ℕ) → places ≤ most_places → places ≤ result → is_between 0 places (Some index.now) ≡ false }
{
    index.cast_unsigned()
}

/// Joins each element, as it is read, with what stands at the place that its index names: what stands there on the left, and
/// several elements in their order. An element whose index names no place is passed by.
///
/// What stands in the room and what the elements are read as must be items of the monoid. There is an index for each element, and
/// the room has at most 2,147,483,647 places. Source: Blelloch's combining send.
#[inline(never)]
pub(crate) fn combine_each<M: Monoid, X: Copy, E: Reading<X, M::Item>>(
    source: &[X],
    index: &[i32],
    out: &mut [M::Item],
)
    requires as_long { length source.now ≡ length index.now }
    requires in_limit { length out.old ≤ most_places }
    requires elements { AllPass (λ x. M.is_item (E.item x)) source.now }
    requires items { AllPass M.is_item out.old }
    ensures joined { out.new ≡ combined M.join (zip index.now (map E.item source.now)) 0 out.old }
    ensures items { AllPass M.is_item out.new }
{
    know_laws::<M>();
    for k in 0..index.len() {
        let place = place_named(&index[k]) as usize;
        if place < out.len() {
            out[place] = M::join(out[place], E::item(source[k]));
        }
    }
}
