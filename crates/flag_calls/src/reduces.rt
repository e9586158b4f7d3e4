//! Reduces of flags: of all, and of each segment.

ghost use Rattle.std.specs.Prelude.{◌≡◌, length, map};
ghost use Rattle.std.specs.List.{AllPass};
ghost use Rattle.cvl_base.specs.Folds.{fold_of};
ghost use Rattle.cvl_base.specs.Rooms.{Overwrites, in_room};
ghost use Rattle.cvl_base.specs.Scans.{bool_join_of, bool_reduce_of, bool_unit_of};
ghost use Rattle.cvl_base.specs.SegmentedCalls.{seg_reduce_of};
ghost use Rattle.flag_calls.specs.Flags.{flags_of};

use crate::flags::TrueByte;
use cvl_base::monoid::know_laws;
use cvl_base::{BoolBinary, Fault, Monoid, by_bool_binary};
use scan_walks::{Reading, seg_reduce_readings_over, sum_from};
use segdes::SegLengths;

/// What the bytes are read as, joined by a monoid.
fn joined<M: Monoid, E: Reading<u8, M::Item>>(a: &[u8]) -> M::Item
    requires { AllPass (λ x. M.is_item (E.item x)) a.now }
    ensures { result ≡ fold_of M.join M.unit (map E.item a.now) }
{
    know_laws::<M>();
    sum_from::<M, u8, E>(M::unit(), a)
}

/// The flags joined by the operator: `and_rub` and its like.
pub fn bool_reduce(op: BoolBinary, a: &[u8]) -> bool
    ensures { result ≡ bool_reduce_of op (flags_of a.now) }
{
    by_bool_binary!(op, joined::<_, TrueByte>(a))
}

/// The flags of each segment joined by the operator, into a room: `and_reb` and its like. `LengthMismatch`, without a place, if
/// the segments' total is not the number of flags, or the room hasn't one place for each segment.
pub fn seg_bool_reduce_over(
    op: BoolBinary,
    a: &[u8],
    d: &SegLengths,
    out: &mut [bool],
) -> Result<(), Fault>
    ensures { Overwrites (in_room (length out.old) (seg_reduce_of (bool_join_of op) (bool_unit_of op) (flags_of a.now) d.now))
        result out.old out.new }
{
    by_bool_binary!(op, seg_reduce_readings_over::<_, u8, TrueByte>(a, d, out))
}
