//! The calls into the caller's room, on the calling thread, for code that has no runtime. They take no memory.

ghost use Rattle.std.specs.Prelude.{◌≤◌, Ok, length, map};
ghost use Rattle.cvl_base.specs.Elementwise.{bools_from_ints, compare_of, ints1_of, ints2_of, on_pairs, on_pairs_or};
ghost use Rattle.cvl_base.specs.Limits.{most_places};
ghost use Rattle.cvl_base.specs.Rooms.{Overwrites, in_room};

use crate::valueless::check_values;
use cvl_base::singles::{BoolOfInt, NotInt};
use cvl_base::{
    Binary, Comparison, Fault, IntBinary, PartialBinary, Single, Unary, by_comparison,
    by_int_binary, check_agree,
};
use element_walks::{Copied, OnEach, OnPairs, OrZero};
use fresh::write_over;

/// Writes the operator's values on the pairs of elements of two vectors. `LengthMismatch` if the vectors and the room differ in
/// length.
pub fn on_pairs_over<O: Binary<X, Z>, X: Copy, Z: Copy>(
    a: &[X],
    b: &[X],
    out: &mut [Z],
) -> Result<(), Fault>
    requires { length a.now ≤ most_places }
    ensures { Overwrites (in_room (length out.old) (on_pairs O.value a.now b.now)) result out.old out.new }
{
    check_agree(a.len(), b.len())?;
    check_agree(a.len(), out.len())?;
    write_over(out, &OnPairs::<O, X>::new(a, b));
    Ok(())
}

/// Writes the operator's values on the pairs of elements, or reports its fault at the first place without a value;
/// `LengthMismatch` if one vector is longer, and, if all pairs have values, if the room is not as long.
fn on_pairs_or_over<O: PartialBinary>(a: &[i32], b: &[i32], out: &mut [i32]) -> Result<(), Fault>
    requires { length a.now ≤ most_places }
    ensures { Overwrites (in_room (length out.old) (on_pairs_or O.fault O.value a.now b.now)) result out.old out.new }
{
    check_values::<O>(a, b)?;
    on_pairs_over::<OrZero<O>, i32, i32>(a, b, out)
}

/// Writes the operator's values on the elements. `LengthMismatch` if the room is not as long.
pub fn on_each_over<O: Single<X, Z>, X: Copy, Z: Copy>(a: &[X], out: &mut [Z]) -> Result<(), Fault>
    requires { length a.now ≤ most_places }
    ensures { Overwrites (in_room (length out.old) (Ok (map O.value a.now))) result out.old out.new }
{
    check_agree(a.len(), out.len())?;
    write_over(out, &OnEach::<O, X>::new(a));
    Ok(())
}

/// Copies the elements. `LengthMismatch` if the room is not as long.
fn copy_over<X: Copy>(a: &[X], out: &mut [X]) -> Result<(), Fault>
    requires { length a.now ≤ most_places }
    ensures { Overwrites (in_room (length out.old) (Ok a.now)) result out.old out.new }
{
    check_agree(a.len(), out.len())?;
    write_over(out, &Copied { elements: a });
    Ok(())
}

/// [`int2`](crate::int2) into a room, whose length is checked last.
pub fn int2_over(op: IntBinary, a: &[i32], b: &[i32], out: &mut [i32]) -> Result<(), Fault>
    requires { length a.now ≤ most_places }
    ensures { Overwrites (in_room (length out.old) (ints2_of op a.now b.now)) result out.old out.new }
{
    by_int_binary!(
        op,
        on_pairs_over::<_, i32, i32>(a, b, out),
        on_pairs_or_over::<_>(a, b, out)
    )
}

/// [`int1`](crate::int1) into a room.
pub fn int1_over(op: Unary, a: &[i32], out: &mut [i32]) -> Result<(), Fault>
    requires { length a.now ≤ most_places }
    ensures { Overwrites (in_room (length out.old) (Ok (ints1_of op a.now))) result out.old out.new }
{
    match op {
        Unary::Not => on_each_over::<NotInt, i32, i32>(a, out),
        Unary::Copy => copy_over(a, out),
    }
}

/// [`compare`](crate::compare) into a room.
pub fn compare_over(op: Comparison, a: &[i32], b: &[i32], out: &mut [bool]) -> Result<(), Fault>
    requires { length a.now ≤ most_places }
    ensures { Overwrites (in_room (length out.old) (compare_of op a.now b.now)) result out.old out.new }
{
    by_comparison!(op, on_pairs_over::<_, i32, bool>(a, b, out))
}

/// [`bool_from_int`](crate::bool_from_int) into a room.
pub fn bool_from_int_over(a: &[i32], out: &mut [bool]) -> Result<(), Fault>
    requires { length a.now ≤ most_places }
    ensures { Overwrites (in_room (length out.old) (Ok (bools_from_ints a.now))) result out.old out.new }
{
    on_each_over::<BoolOfInt, i32, bool>(a, out)
}
