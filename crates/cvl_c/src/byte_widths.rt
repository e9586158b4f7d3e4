//! Bytes widened to integers, and integers narrowed to bytes.

ghost use Rattle.std.specs.Prelude.{Ok};
ghost use Rattle.byte_numbers.specs.Bytes.{bytes_from_ints_of, ints_from_bytes};
ghost use Rattle.c_calls.specs.Calls.{in_limit};
ghost use Rattle.c_calls.specs.Told.{RoomTold};

use byte_numbers::{bytes_from_ints_over, ints_from_bytes_over};
use c_calls::checks::check_limit;
use c_calls::or_tell;
use c_calls::status::{CvlStatus, told_over};

/// Each byte as an integer from 0 to 255.
#[unsafe(no_mangle)]
pub extern "C" fn cvl_proved_ints_from_bytes(bytes: &[u8], out: &mut [i32]) -> CvlStatus
    ensures { RoomTold (in_limit bytes.now (Ok (ints_from_bytes bytes.now))) result out.old out.new }
{
    or_tell!(check_limit(bytes));
    told_over::<i32>(ints_from_bytes_over(bytes, out))
}

/// Each integer as a byte.
#[unsafe(no_mangle)]
pub extern "C" fn cvl_proved_bytes_from_ints(a: &[i32], out: &mut [u8]) -> CvlStatus
    ensures { RoomTold (in_limit a.now (bytes_from_ints_of a.now)) result out.old out.new }
{
    or_tell!(check_limit(a));
    told_over::<u8>(bytes_from_ints_over(a, out))
}
