//! Flags that are neither 0 nor 1, for the calls that take only 0 and 1.

ghost use Rattle.std.specs.Prelude.{◌≡◌, map};
ghost use Rattle.std.specs.List.{list_all};
ghost use Rattle.flag_calls.specs.Flags.{as_flag, is_flag};

use flag_calls::{are_flags, make_flags};

/// Whether each byte is 0 or 1.
#[unsafe(no_mangle)]
pub extern "C" fn cvl_proved_are_flags(bytes: &[u8]) -> bool
    ensures { result ≡ list_all is_flag bytes.now }
{
    are_flags(bytes)
}

/// Makes each byte that is not 0 a 1.
#[unsafe(no_mangle)]
pub extern "C" fn cvl_proved_make_flags(bytes: &mut [u8])
    ensures { bytes.new ≡ map as_flag bytes.old }
{
    make_flags(bytes)
}
