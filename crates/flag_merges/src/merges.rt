//! The merge of two vectors by flags.

ghost use Rattle.std.specs.Prelude.{◌≡◌, ◌≤◌, length, map, not};
ghost use Rattle.cvl_base.specs.Limits.{most_places};
ghost use Rattle.cvl_base.specs.Packs.{count_of};
ghost use Rattle.cvl_base.specs.Rooms.{Overwrites, in_room};
ghost use Rattle.flag_merges.specs.Merges.{merge_of, merged};

use cvl_base::{Fault, check_agree, true_count};

/// Writes the merge of two vectors that have as many elements as there are true and false flags.
// The choice of a vector is no branch, since random flags would make the processor guess.
#[inline(never)]
pub(crate) fn write_merged<T: Copy>(
    flags: &[bool],
    when_true: &[T],
    when_false: &[T],
    out: &mut [T],
)
    requires true_ones { count_of flags.now ≡ length when_true.now }
    requires false_ones { count_of (map not flags.now) ≡ length when_false.now }
    requires as_long { length flags.now ≡ length out.old }
    ensures { out.new ≡ merged flags.now when_true.now when_false.now }
{
    let (mut first, mut second) = (0, 0);
    for k in 0..flags.len() {
        let flag = flags[k];
        let (side, place) = if flag {
            (when_true, first)
        } else {
            (when_false, second)
        };
        out[k] = side[place];
        first += usize::from(flag);
        second += usize::from(!flag);
    }
}

/// The merge of two vectors by flags: place after place the next element of the first vector if the flag is true, and of the
/// second if it is false. It is the inverse of two packs.
///
/// There are at most 2,147,483,647 flags. `LengthMismatch`, without a place, if the first vector does not have as many elements
/// as there are true flags, the second as false ones, or the room as flags; the room is then as before.
pub fn merge_by_flags_over<T: Copy>(
    flags: &[bool],
    when_true: &[T],
    when_false: &[T],
    out: &mut [T],
) -> Result<(), Fault>
    requires few { length flags.now ≤ most_places }
    ensures { Overwrites (in_room (length out.old) (merge_of flags.now when_true.now when_false.now)) result out.old out.new }
{
    let count = true_count(flags);
    check_agree(count, when_true.len())?;
    check_agree(flags.len() - count, when_false.len())?;
    check_agree(flags.len(), out.len())?;
    write_merged(flags, when_true, when_false, out);
    Ok(())
}
