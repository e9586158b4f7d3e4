//! The operators on booleans, place by place, on flags that come as bytes: into a room, or over one of the vectors.

ghost use Rattle.std.specs.Prelude.{◌≤◌, Ok, length};
ghost use Rattle.cvl_base.specs.Elementwise.{bools1_of, bools2_of, ints_from_bools, on_pairs};
ghost use Rattle.cvl_base.specs.Limits.{most_places};
ghost use Rattle.cvl_base.specs.Rooms.{Overwrites, in_room};
ghost use Rattle.flag_calls.specs.Flags.{as_bytes, flags_of};

use crate::flags::{OnBytes, OneForTrue};
use cvl_base::singles::NotBool;
use cvl_base::{Binary, BoolBinary, Fault, Unary, by_bool_binary};
use element_walks::Same;
use elementwise::{
    on_each_in, on_each_over, on_pairs_in_both, on_pairs_in_first, on_pairs_in_second,
    on_pairs_over,
};

/// Writes the operator's values on the pairs of flags. `LengthMismatch` if the vectors and the room differ in length.
fn pairs_over<O: Binary<bool, bool>>(a: &[u8], b: &[u8], out: &mut [u8]) -> Result<(), Fault>
    requires { length a.now ≤ most_places }
    ensures { Overwrites (in_room (length out.old) (as_bytes (on_pairs O.value (flags_of a.now) (flags_of b.now))))
        result out.old out.new }
{
    on_pairs_over::<OnBytes<O>, u8, u8>(a, b, out)
}

/// The same over the first vector.
fn pairs_in_first<O: Binary<bool, bool>>(a: &mut [u8], b: &[u8]) -> Result<(), Fault>
    ensures { Overwrites (as_bytes (on_pairs O.value (flags_of a.old) (flags_of b.now))) result a.old a.new }
{
    on_pairs_in_first::<OnBytes<O>, u8>(a, b)
}

/// The same over the second vector.
fn pairs_in_second<O: Binary<bool, bool>>(a: &[u8], b: &mut [u8]) -> Result<(), Fault>
    ensures { Overwrites (as_bytes (on_pairs O.value (flags_of a.now) (flags_of b.old))) result b.old b.new }
{
    on_pairs_in_second::<OnBytes<O>, u8>(a, b)
}

/// The same for a vector and itself.
fn pairs_in_both<O: Binary<bool, bool>>(a: &mut [u8]) -> Result<(), Fault>
    ensures { Overwrites (as_bytes (on_pairs O.value (flags_of a.old) (flags_of a.old))) result a.old a.new }
{
    on_pairs_in_both::<OnBytes<O>, u8>(a)
}

/// The operator on each two flags at the same place: `and_wub` and its like. `LengthMismatch`, without a place, if the vectors
/// and the room differ in length; the room is checked last.
pub fn bool2_over(op: BoolBinary, a: &[u8], b: &[u8], out: &mut [u8]) -> Result<(), Fault>
    requires { length a.now ≤ most_places }
    ensures { Overwrites (in_room (length out.old) (as_bytes (bools2_of op (flags_of a.now) (flags_of b.now))))
        result out.old out.new }
{
    by_bool_binary!(op, pairs_over::<_>(a, b, out))
}

/// [`bool2_over`], written over the first vector.
pub fn bool2_in_first(op: BoolBinary, a: &mut [u8], b: &[u8]) -> Result<(), Fault>
    ensures { Overwrites (as_bytes (bools2_of op (flags_of a.old) (flags_of b.now))) result a.old a.new }
{
    by_bool_binary!(op, pairs_in_first::<_>(a, b))
}

/// [`bool2_over`], written over the second vector.
pub fn bool2_in_second(op: BoolBinary, a: &[u8], b: &mut [u8]) -> Result<(), Fault>
    ensures { Overwrites (as_bytes (bools2_of op (flags_of a.now) (flags_of b.old))) result b.old b.new }
{
    by_bool_binary!(op, pairs_in_second::<_>(a, b))
}

/// [`bool2_over`] of a vector and itself, written over the vector.
pub fn bool2_in_both(op: BoolBinary, a: &mut [u8]) -> Result<(), Fault>
    ensures { Overwrites (as_bytes (bools2_of op (flags_of a.old) (flags_of a.old))) result a.old a.new }
{
    by_bool_binary!(op, pairs_in_both::<_>(a))
}

/// The operator on each flag: `not_wub` and `cpy_wub`. `LengthMismatch`, without a place, if the room is not as long.
pub fn bool1_over(op: Unary, a: &[u8], out: &mut [u8]) -> Result<(), Fault>
    requires { length a.now ≤ most_places }
    ensures { Overwrites (in_room (length out.old) (as_bytes (Ok (bools1_of op (flags_of a.now))))) result out.old out.new }
{
    match op {
        Unary::Not => on_each_over::<OnBytes<NotBool>, u8, u8>(a, out),
        Unary::Copy => on_each_over::<OnBytes<Same>, u8, u8>(a, out),
    }
}

/// [`bool1_over`], written over the vector. There is no fault.
pub fn bool1_in(op: Unary, a: &mut [u8]) -> Result<(), Fault>
    ensures { Overwrites (as_bytes (Ok (bools1_of op (flags_of a.old)))) result a.old a.new }
{
    match op {
        Unary::Not => on_each_in::<OnBytes<NotBool>, u8>(a),
        Unary::Copy => on_each_in::<OnBytes<Same>, u8>(a),
    }
    Ok(())
}

/// 1 for each true flag, and 0 for each false one: `int_wub`. `LengthMismatch`, without a place, if the room is not as long.
pub fn int_from_bool_over(a: &[u8], out: &mut [i32]) -> Result<(), Fault>
    requires { length a.now ≤ most_places }
    ensures { Overwrites (in_room (length out.old) (Ok (ints_from_bools (flags_of a.now)))) result out.old out.new }
{
    on_each_over::<OneForTrue, u8, i32>(a, out)
}
