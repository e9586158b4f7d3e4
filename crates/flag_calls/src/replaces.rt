//! Replace: flags with another one at one place.

ghost use Rattle.std.specs.Prelude.{length};
ghost use Rattle.cvl_base.specs.Extracts.{replace_of};
ghost use Rattle.cvl_base.specs.Rooms.{Overwrites, in_room};
ghost use Rattle.flag_calls.specs.Flags.{as_bytes, flags_of};

use crate::flags::{OnBytes, byte_of};
use cvl_base::{Fault, FaultNo, check_agree, place_among};
use element_walks::{OnEach, Same};
use fresh::write_over;

/// The flags with another one at the index, a place counted from 0, in a room: `rep_vub`. `IndexOutOfRange`, at 0, if there is no
/// such place; `LengthMismatch`, without a place, if the room is not as long.
pub fn replace_over(vector: &[u8], index: i32, value: bool, out: &mut [u8]) -> Result<(), Fault>
    ensures { Overwrites (in_room (length out.old) (as_bytes (replace_of (flags_of vector.now) index value)))
        result out.old out.new }
{
    let Some(place) = place_among(vector.len(), &index) else {
        return Err(Fault::at(FaultNo::IndexOutOfRange, 0));
    };
    check_agree(vector.len(), out.len())?;
    write_over(out, &OnEach::<OnBytes<Same>, u8>::new(vector));
    out[place] = byte_of(value);
    Ok(())
}
