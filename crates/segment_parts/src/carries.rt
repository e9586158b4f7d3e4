//! What stands before each part.

ghost use Rattle.std.specs.Prelude.{◌≡◌, IsTrue, if◌then◌else◌, length};
ghost use Rattle.std.specs.List.{AllPass};
ghost use Rattle.cvl_base.specs.Rooms.{Overwrites, in_room};
ghost use Rattle.segment_parts.specs.Carries.{before_each, seg_carries_of};

use cvl_base::monoid::know_laws;
use cvl_base::{Fault, Monoid, check_agree};

/// Writes what stands before each part of a segmented vector: the join of the elements since the last start of a segment before
/// the part, and the unit before the first part. `starts` says of each part whether a segment starts in it, and `told` what its
/// elements since its last start join to, or all of its elements if none starts.
///
/// `LengthMismatch`, without a place, if `starts`, `told` and the room are not equally long; the room is then as before. What is
/// told must be items of the monoid. Source: the pair operator of Blelloch's segmented scans.
pub fn seg_carries<M: Monoid>(
    starts: &[bool],
    told: &[M::Item],
    out: &mut [M::Item],
) -> Result<(), Fault>
    requires { AllPass M.is_item told.now }
    ensures { Overwrites (in_room (length out.old) (seg_carries_of M.join M.unit starts.now told.now)) result out.old out.new }
{
    check_agree(starts.len(), told.len())?;
    check_agree(told.len(), out.len())?;
    write_carries::<M>(starts, told, out);
    Ok(())
}

/// Writes what stands before each part into a room that is as long.
#[inline(never)]
fn write_carries<M: Monoid>(starts: &[bool], told: &[M::Item], out: &mut [M::Item])
    requires items { AllPass M.is_item told.now }
    requires starts { length starts.now ≡ length told.now }
    requires room { length told.now ≡ length out.old }
    ensures { out.new ≡ before_each M.join M.unit starts.now told.now }
{
    know_laws::<M>();
    let mut before = M::unit();
    for k in 0..told.len() {
        out[k] = before;
        before = next_carry::<M>(before, starts[k], told[k]);
    }
}

/// What stands behind a part: what it tells if a segment starts in it, else what stands before it, joined with that.
fn next_carry<M: Monoid>(before: M::Item, starts: bool, told: M::Item) -> M::Item
    requires before { IsTrue (M.is_item before) }
    requires told { IsTrue (M.is_item told) }
    ensures next { result ≡ (if starts then told else M.join before told) }
    ensures item { IsTrue (M.is_item result) }
{
    if starts { told } else { M::join(before, told) }
}
