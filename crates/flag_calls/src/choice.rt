//! The choice between two vectors by flags that come as bytes: into a room, or over one of the two.

ghost use Rattle.std.specs.Prelude.{◌≤◌, length};
ghost use Rattle.cvl_base.specs.Elementwise.{choose_of};
ghost use Rattle.cvl_base.specs.Limits.{most_places};
ghost use Rattle.cvl_base.specs.Rooms.{Overwrites, in_room};
ghost use Rattle.flag_calls.specs.Flags.{as_bytes, choose_by, flag_of, flags_of};

use crate::flags::{FalseByte, OnBytes, TrueByte};
use cvl_base::{Fault, Single, check_agree};
use element_walks::{Chosen, Same, choose};
use fresh::write_over;

/// The choice into a room, whose length is checked last.
fn choose_over<O: Single<T, T>, T: Copy>(
    bytes: &[u8],
    a: &[T],
    b: &[T],
    out: &mut [T],
) -> Result<(), Fault>
    requires { length bytes.now ≤ most_places }
    ensures { Overwrites (in_room (length out.old) (choose_by flag_of O.value bytes.now a.now b.now)) result out.old out.new }
{
    check_agree(bytes.len(), a.len())?;
    check_agree(bytes.len(), b.len())?;
    check_agree(bytes.len(), out.len())?;
    write_over(out, &Chosen::<TrueByte, O, u8, T>::new(bytes, a, b));
    Ok(())
}

/// The choice over one of the two vectors: at each place its own element if the byte passes the test, else the other vector's.
fn choose_in<F: Single<u8, bool>, O: Single<T, T>, T: Copy>(
    bytes: &[u8],
    over: &mut [T],
    others: &[T],
) -> Result<(), Fault>
    ensures { Overwrites (choose_by F.value O.value bytes.now over.old others.now) result over.old over.new }
{
    check_agree(bytes.len(), over.len())?;
    check_agree(bytes.len(), others.len())?;
    for place in 0..over.len() {
        over[place] = O::apply(choose(F::apply(bytes[place]), over[place], others[place]));
    }
    Ok(())
}

/// At each place the element of `a` if the flag is true, else that of `b`: `sel_wuz` and its like. `LengthMismatch`, without a
/// place, if the vectors and the room differ in length; the room is checked last.
pub fn select_over<T: Copy>(flags: &[u8], a: &[T], b: &[T], out: &mut [T]) -> Result<(), Fault>
    requires { length flags.now ≤ most_places }
    ensures { Overwrites (in_room (length out.old) (choose_of (flags_of flags.now) a.now b.now)) result out.old out.new }
{
    choose_over::<Same, T>(flags, a, b, out)
}

/// [`select_over`], written over `a`.
pub fn select_in_first<T: Copy>(flags: &[u8], a: &mut [T], b: &[T]) -> Result<(), Fault>
    ensures { Overwrites (choose_of (flags_of flags.now) a.old b.now) result a.old a.new }
{
    choose_in::<TrueByte, Same, T>(flags, a, b)
}

/// [`select_over`], written over `b`.
pub fn select_in_second<T: Copy>(flags: &[u8], a: &[T], b: &mut [T]) -> Result<(), Fault>
    ensures { Overwrites (choose_of (flags_of flags.now) a.now b.old) result b.old b.new }
{
    choose_in::<FalseByte, Same, T>(flags, b, a)
}

/// [`select_over`] between flags: `sel_wub`.
pub fn select_flags_over(flags: &[u8], a: &[u8], b: &[u8], out: &mut [u8]) -> Result<(), Fault>
    requires { length flags.now ≤ most_places }
    ensures { Overwrites (in_room (length out.old) (as_bytes (choose_of (flags_of flags.now) (flags_of a.now) (flags_of b.now))))
        result out.old out.new }
{
    choose_over::<OnBytes<Same>, u8>(flags, a, b, out)
}

/// [`select_flags_over`], written over `a`.
pub fn select_flags_in_first(flags: &[u8], a: &mut [u8], b: &[u8]) -> Result<(), Fault>
    ensures { Overwrites (as_bytes (choose_of (flags_of flags.now) (flags_of a.old) (flags_of b.now))) result a.old a.new }
{
    choose_in::<TrueByte, OnBytes<Same>, u8>(flags, a, b)
}

/// [`select_flags_over`], written over `b`.
pub fn select_flags_in_second(flags: &[u8], a: &[u8], b: &mut [u8]) -> Result<(), Fault>
    ensures { Overwrites (as_bytes (choose_of (flags_of flags.now) (flags_of a.now) (flags_of b.old))) result b.old b.new }
{
    choose_in::<FalseByte, OnBytes<Same>, u8>(flags, b, a)
}
