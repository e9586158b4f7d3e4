//! The scan of one segment. Nothing is joined for its first two places, so a segment of one element has no loop.

ghost use Rattle.std.specs.Prelude.{◌≡◌, ◌≤◌, IsTrue, length, map};
ghost use Rattle.std.specs.List.{AllPass};
ghost use Rattle.cvl_base.specs.Folds.{scan_of};
ghost use Rattle.fresh.specs.Places.{with_items};

use crate::plain::scan_into;
use crate::readings::Reading;
use cvl_base::Monoid;
use cvl_base::monoid::know_laws;
use fresh::Run;

/// Writes the scan of one segment: at each element's place the join of the items read from those before it, and the unit at the
/// first. The run must have room for one item for each element.
// inlined, since a call takes longer than a short segment
#[inline(always)]
pub(crate) fn scan_of_segment<M: Monoid, X: Copy, E: Reading<X, M::Item>>(
    mut run: Run<M::Item>,
    xs: &[X],
) -> Run<M::Item>
    requires room { length xs.now ≤ run.room }
    requires items { AllPass (λ x. M.is_item (E.item x)) xs.now }
    ensures { result ≡ with_items run (scan_of M.join M.unit (map E.item xs.now)) }
{
    know_laws::<M>();
    let Some((first, others)) = xs.split_first() else {
        return run;
    };
    run.push(M::unit());
    scan_into::<M, X, E>(run, E::item(*first), others)
}
