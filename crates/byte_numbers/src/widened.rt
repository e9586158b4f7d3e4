//! Bytes widened to integers.

ghost use Rattle.std.specs.Prelude.{◌≡◌, Ok, length};
ghost use Rattle.byte_numbers.specs.Bytes.{ints_from_bytes};
ghost use Rattle.cvl_base.specs.Rooms.{Overwrites, in_room};

use cvl_base::{Fault, check_agree};

/// Writes each byte as an integer.
#[inline(never)]
fn write_ints(bytes: &[u8], out: &mut [i32])
    requires { length bytes.now ≡ length out.old }
    ensures { out.new ≡ ints_from_bytes bytes.now }
{
    for k in 0..bytes.len() {
        out[k] = i32::from(bytes[k]);
    }
}

/// Each byte as an integer from 0 to 255.
///
/// `LengthMismatch`, without a place, if the room is not as long as the bytes; it is then as before.
pub fn ints_from_bytes_over(bytes: &[u8], out: &mut [i32]) -> Result<(), Fault>
    ensures { Overwrites (in_room (length out.old) (Ok (ints_from_bytes bytes.now))) result out.old out.new }
{
    check_agree(bytes.len(), out.len())?;
    write_ints(bytes, out);
    Ok(())
}
