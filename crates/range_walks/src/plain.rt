//! The loops over elements among which no segment starts.

ghost use Rattle.std.specs.Prelude.{◌≡◌, ◌≤◌, IsTrue, IfOk, length, map, vec_len};
ghost use Rattle.std.specs.List.{AllPass};
ghost use Rattle.cvl_base.specs.Folds.{fold_of, scan_of};
ghost use Rattle.fresh.specs.Places.{with_items};

use crate::readings::Reading;
use cvl_base::monoid::know_laws;
use cvl_base::{Monoid, NoResources};
use fresh::{Room, Run};
use std::alloc::Allocator;

/// What stands before the elements, joined from left to right with the items read from them.
///
/// `before` and all items read must be items of the monoid. It takes no memory. Source: CVL's reduces.
// inlined, since a call takes longer than a short segment
#[inline(always)]
pub fn sum_from<M: Monoid, X: Copy, E: Reading<X, M::Item>>(before: M::Item, xs: &[X]) -> M::Item
    requires before { IsTrue (M.is_item before) }
    requires items { AllPass (λ x. M.is_item (E.item x)) xs.now }
    ensures { result ≡ fold_of M.join before (map E.item xs.now) }
{
    know_laws::<M>();
    let mut sum = before;
    for x in xs {
        sum = M::join(sum, E::item(*x));
    }
    sum
}

/// Writes at each element's place what stands before it: `before`, joined from left to right with the items read from the
/// elements before it. The run must have room for what is written.
///
/// `before` and all items read must be items of the monoid. Source: Blelloch's prescan.
// inlined, so that what is known of the run stays in registers while the loop runs
#[inline(always)]
pub fn scan_into<M: Monoid, X: Copy, E: Reading<X, M::Item>>(
    mut run: Run<M::Item>,
    before: M::Item,
    xs: &[X],
) -> Run<M::Item>
    requires room { length xs.now ≤ run.room }
    requires before { IsTrue (M.is_item before) }
    requires items { AllPass (λ x. M.is_item (E.item x)) xs.now }
    ensures { result ≡ with_items run (scan_of M.join before (map E.item xs.now)) }
{
    know_laws::<M>();
    let mut so_far = before;
    for x in xs {
        run.push(so_far);
        so_far = M::join(so_far, E::item(*x));
    }
    run
}

/// At each element's place what stands before it: `before`, joined from left to right with the items read from the elements
/// before it.
///
/// `before` and all items read must be items of the monoid. The result is as long as the elements. Source: Blelloch's prescan.
pub fn scan_vec<M: Monoid, X: Copy, E: Reading<X, M::Item>, A: Allocator>(
    alloc: A,
    before: M::Item,
    xs: &[X],
) -> Result<Vec<M::Item, A>, NoResources>
    requires before { IsTrue (M.is_item before) }
    requires items { AllPass (λ x. M.is_item (E.item x)) xs.now }
    ensures values { IfOk result (λ sums. sums.items ≡ scan_of M.join before (map E.item xs.now)) }
    ensures as_long { IfOk result (λ sums. vec_len sums ≡ length xs.now) }
{
    let (room, run) = Room::new(alloc, xs.len())?;
    Ok(room.into_vec(scan_into::<M, X, E>(run, before, xs)))
}
