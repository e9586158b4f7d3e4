//! The calls in place, on the calling thread: the result overwrites a vector that the operator takes. After a fault the vector is
//! as before. They take no memory.

ghost use Rattle.std.specs.Prelude.{◌≡◌, ◌≤◌, Ok, length, map};
ghost use Rattle.std.specs.List.{zip};
ghost use Rattle.cvl_base.specs.Elementwise.{ints1_of, ints2_of, on_pairs, on_pairs_or};
ghost use Rattle.cvl_base.specs.Limits.{most_places};
ghost use Rattle.cvl_base.specs.Rooms.{Overwrites};

use crate::valueless::check_values;
use cvl_base::sides::{Flipped, Twice};
use cvl_base::singles::NotInt;
use cvl_base::{
    Binary, Fault, IntBinary, PartialBinary, Single, Unary, by_int_binary, check_agree,
};
use element_walks::OrZero;

/// Writes the operator's value over each element.
pub fn on_each_in<O: Single<X, X>, X: Copy>(a: &mut [X])
    ensures { a.new ≡ map O.value a.old }
{
    for place in 0..a.len() {
        a[place] = O::apply(a[place]);
    }
}

/// Writes the operator's values on the pairs of elements of two vectors over the first.
fn write_pairs<O: Binary<X, X>, X: Copy>(a: &mut [X], b: &[X])
    requires as_long { length a.old ≡ length b.now }
    ensures { a.new ≡ map (λ p. O.value p.0 p.1) (zip a.old b.now) }
{
    for place in 0..a.len() {
        a[place] = O::apply(a[place], b[place]);
    }
}

/// Writes the operator's values on the pairs of elements over the first vector. `LengthMismatch` if one is longer.
pub fn on_pairs_in_first<O: Binary<X, X>, X: Copy>(a: &mut [X], b: &[X]) -> Result<(), Fault>
    ensures { Overwrites (on_pairs O.value a.old b.now) result a.old a.new }
{
    check_agree(a.len(), b.len())?;
    write_pairs::<O, X>(a, b);
    Ok(())
}

/// The same over the second vector.
pub fn on_pairs_in_second<O: Binary<X, X>, X: Copy>(a: &[X], b: &mut [X]) -> Result<(), Fault>
    ensures { Overwrites (on_pairs O.value a.now b.old) result b.old b.new }
{
    check_agree(a.len(), b.len())?;
    write_pairs::<Flipped<O>, X>(b, a);
    Ok(())
}

/// The same for a vector and itself.
pub fn on_pairs_in_both<O: Binary<X, X>, X: Copy>(a: &mut [X]) -> Result<(), Fault>
    ensures { Overwrites (on_pairs O.value a.old a.old) result a.old a.new }
{
    on_each_in::<Twice<O>, X>(a);
    Ok(())
}

/// Writes the operator's values on the pairs of elements over the first vector, or reports its fault at the first place without a
/// value; `LengthMismatch` if one vector is longer.
fn on_pairs_or_in_first<O: PartialBinary>(a: &mut [i32], b: &[i32]) -> Result<(), Fault>
    requires { length a.old ≤ most_places }
    ensures { Overwrites (on_pairs_or O.fault O.value a.old b.now) result a.old a.new }
{
    check_values::<O>(a, b)?;
    on_pairs_in_first::<OrZero<O>, i32>(a, b)
}

/// The same over the second vector.
fn on_pairs_or_in_second<O: PartialBinary>(a: &[i32], b: &mut [i32]) -> Result<(), Fault>
    requires { length a.now ≤ most_places }
    ensures { Overwrites (on_pairs_or O.fault O.value a.now b.old) result b.old b.new }
{
    check_values::<O>(a, b)?;
    on_pairs_in_second::<OrZero<O>, i32>(a, b)
}

/// The same for a vector and itself.
fn on_pairs_or_in_both<O: PartialBinary>(a: &mut [i32]) -> Result<(), Fault>
    requires { length a.old ≤ most_places }
    ensures { Overwrites (on_pairs_or O.fault O.value a.old a.old) result a.old a.new }
{
    check_values::<O>(a, a)?;
    on_pairs_in_both::<OrZero<O>, i32>(a)
}

/// [`int2`](crate::int2), written over the first vector.
pub fn int2_in_first(op: IntBinary, a: &mut [i32], b: &[i32]) -> Result<(), Fault>
    requires { length a.old ≤ most_places }
    ensures { Overwrites (ints2_of op a.old b.now) result a.old a.new }
{
    by_int_binary!(
        op,
        on_pairs_in_first::<_, i32>(a, b),
        on_pairs_or_in_first::<_>(a, b)
    )
}

/// [`int2`](crate::int2), written over the second vector.
pub fn int2_in_second(op: IntBinary, a: &[i32], b: &mut [i32]) -> Result<(), Fault>
    requires { length a.now ≤ most_places }
    ensures { Overwrites (ints2_of op a.now b.old) result b.old b.new }
{
    by_int_binary!(
        op,
        on_pairs_in_second::<_, i32>(a, b),
        on_pairs_or_in_second::<_>(a, b)
    )
}

/// [`int2`](crate::int2) of a vector and itself, written over the vector.
pub fn int2_in_both(op: IntBinary, a: &mut [i32]) -> Result<(), Fault>
    requires { length a.old ≤ most_places }
    ensures { Overwrites (ints2_of op a.old a.old) result a.old a.new }
{
    by_int_binary!(
        op,
        on_pairs_in_both::<_, i32>(a),
        on_pairs_or_in_both::<_>(a)
    )
}

/// [`int1`](crate::int1), written over the vector.
pub fn int1_in(op: Unary, a: &mut [i32])
    ensures { a.new ≡ ints1_of op a.old }
{
    match op {
        Unary::Not => on_each_in::<NotInt, i32>(a),
        Unary::Copy => {}
    }
}
