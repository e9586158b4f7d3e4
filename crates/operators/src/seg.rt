//! The monoid that starts again at each segment.

ghost use Rattle.std.specs.Prelude.{false};
ghost use Rattle.operators.specs.SegmentMonoid.{is_seg_item, seg_unit, seg_join};
ghost use Rattle.operators.specs.SegmentMonoidLaws.{seg_laws};

use crate::monoid::Monoid;
use std::marker::PhantomData;

/// The monoid of `M` over a flat vector that is cut into segments.
///
/// An item says of a run of elements whether a segment starts in it, and what its elements join to since the last start. It isn't
/// commutative.
///
/// Source: the pair operator of Blelloch's segmented scans.
pub struct Seg<M>(PhantomData<M>);

impl<M: Monoid> Monoid for Seg<M> {
    type Item = (bool, M::Item);

    ghost is_item = { is_seg_item M.is_item };

    ghost unit = { seg_unit M.unit };

    ghost join = { seg_join M.join };

    ghost laws = { seg_laws M.laws };

    fn is_item(x: (bool, M::Item)) -> bool {
        M::is_item(x.1)
    }

    fn unit() -> (bool, M::Item) {
        (false, M::unit())
    }

    fn join(a: (bool, M::Item), b: (bool, M::Item)) -> (bool, M::Item) {
        let since = if b.0 { b.1 } else { M::join(a.1, b.1) };
        (a.0 | b.0, since)
    }
}
