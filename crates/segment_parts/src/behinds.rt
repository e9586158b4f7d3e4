//! What goes on behind each part.

ghost use Rattle.std.specs.Prelude.{◌≡◌, IsTrue, if◌then◌else◌, length};
ghost use Rattle.std.specs.List.{AllPass, zip};
ghost use Rattle.cvl_base.specs.Rooms.{Overwrites, in_room};
ghost use Rattle.segment_parts.specs.Behinds.{behind_each, seg_behinds_of};

use cvl_base::monoid::know_laws;
use cvl_base::{Fault, Monoid, check_agree};

/// Writes what goes on behind each part of a segmented vector: the join of the elements behind the part up to the next start of a
/// segment, and the unit behind the last part. `starts` says of each part whether a segment starts in it, and `told` what its
/// elements before its first start join to, or all of its elements if none starts.
///
/// `LengthMismatch`, without a place, if `starts`, `told` and the room are not equally long; the room is then as before. What is
/// told must be items of the monoid. Source: the pair operator of Blelloch's segmented scans.
pub fn seg_behinds<M: Monoid>(
    starts: &[bool],
    told: &[M::Item],
    out: &mut [M::Item],
) -> Result<(), Fault>
    requires { AllPass M.is_item told.now }
    ensures { Overwrites (in_room (length out.old) (seg_behinds_of M.join M.unit starts.now told.now)) result out.old out.new }
{
    check_agree(starts.len(), told.len())?;
    check_agree(told.len(), out.len())?;
    write_behinds::<M>(starts, told, out);
    Ok(())
}

/// Writes what goes on behind each part into a room that is as long.
#[inline(never)]
fn write_behinds<M: Monoid>(starts: &[bool], told: &[M::Item], out: &mut [M::Item])
    requires items { AllPass M.is_item told.now }
    requires starts { length starts.now ≡ length told.now }
    requires room { length told.now ≡ length out.old }
    ensures { out.new ≡ behind_each M.join M.unit (zip starts.now told.now) }
{
    know_laws::<M>();
    let mut behind = M::unit();
    let mut left = told.len();
    while left > 0 {
        left -= 1;
        out[left] = behind;
        behind = from_front::<M>(starts[left], told[left], behind);
    }
}

/// What goes on where a part begins: what it tells, joined with what goes on behind it if no segment starts in it.
fn from_front<M: Monoid>(starts: bool, told: M::Item, behind: M::Item) -> M::Item
    requires told { IsTrue (M.is_item told) }
    requires behind { IsTrue (M.is_item behind) }
    ensures front { result ≡ (if starts then told else M.join told behind) }
    ensures item { IsTrue (M.is_item result) }
{
    if starts { told } else { M::join(told, behind) }
}
