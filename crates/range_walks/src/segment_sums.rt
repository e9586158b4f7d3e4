//! The sum of one segment. A short one has no loop: its elements are joined four at once, and then one by one.

ghost use Rattle.std.specs.Prelude.{◌≡◌, IfSome, IsTrue, None, map};
ghost use Rattle.std.specs.List.{AllPass};
ghost use Rattle.cvl_base.specs.Folds.{fold_of};

use crate::plain::sum_from;
use crate::readings::Reading;
use cvl_base::Monoid;
use cvl_base::monoid::know_laws;

/// The most elements of a short segment.
const SHORT: usize = 7;

/// What stands before the elements joined with the first of them, and the elements after it; none if there is no element.
#[inline(always)]
fn with_first<M: Monoid, X: Copy, E: Reading<X, M::Item>>(
    before: M::Item,
    xs: &[X],
) -> Option<(M::Item, &[X])>
    requires before { IsTrue (M.is_item before) }
    requires items { AllPass (λ x. M.is_item (E.item x)) xs.now }
    ensures item { IfSome result (λ more. IsTrue (M.is_item more.0)) }
    ensures items { IfSome result (λ more. AllPass (λ x. M.is_item (E.item x)) more.1.now) }
    ensures none { result ≡ None → before ≡ fold_of M.join before (map E.item xs.now) }
    ensures sum { IfSome result (λ more. fold_of M.join more.0 (map E.item more.1.now)
        ≡ fold_of M.join before (map E.item xs.now)) }
{
    know_laws::<M>();
    let (first, others) = xs.split_first()?;
    Some((M::join(before, E::item(*first)), others))
}

/// `sum_from`, without a loop if there are at most three elements.
#[inline(always)]
fn sum_of_few<M: Monoid, X: Copy, E: Reading<X, M::Item>>(before: M::Item, xs: &[X]) -> M::Item
    requires before { IsTrue (M.is_item before) }
    requires items { AllPass (λ x. M.is_item (E.item x)) xs.now }
    ensures { result ≡ fold_of M.join before (map E.item xs.now) }
{
    let Some((sum, xs)) = with_first::<M, X, E>(before, xs) else {
        return before;
    };
    let Some((sum, xs)) = with_first::<M, X, E>(sum, xs) else {
        return sum;
    };
    let Some((sum, xs)) = with_first::<M, X, E>(sum, xs) else {
        return sum;
    };
    sum_from::<M, X, E>(sum, xs)
}

/// The sum of one segment: the join of its elements, and the unit if it is empty.
// The compiler makes a loop take many elements at a time, which costs a short segment more than its elements do.
#[inline(always)]
pub(crate) fn sum_of_segment<M: Monoid, X: Copy, E: Reading<X, M::Item>>(xs: &[X]) -> M::Item
    requires items { AllPass (λ x. M.is_item (E.item x)) xs.now }
    ensures { result ≡ fold_of M.join M.unit (map E.item xs.now) }
{
    know_laws::<M>();
    if xs.len() > SHORT {
        return sum_from::<M, X, E>(M::unit(), xs);
    }
    if xs.len() < 4 {
        return sum_of_few::<M, X, E>(M::unit(), xs);
    }
    let (four, rest) = xs.split_at(4);
    sum_of_few::<M, X, E>(sum_from::<M, X, E>(M::unit(), four), rest)
}
