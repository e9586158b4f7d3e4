//! The first element that passes a test; the first true flag.

ghost use Rattle.std.specs.Prelude.{◌≡◌, ◌<◌, ◌≤◌, IfSome, length, not, position, take, true};
ghost use Rattle.std.specs.List.{list_all};
ghost use Rattle.cvl_base.specs.Limits.{most_places};
ghost use Rattle.cvl_base.specs.Rooms.{Overwrites, in_room};
ghost use Rattle.segment_values.specs.Values.{each_of, first_by, first_true_of};

use crate::values::{SegmentValue, values_over};
use cvl_base::{Fault, Single};
use segdes::SegLengths;
use std::marker::PhantomData;

/// The place if none passes.
pub const NONE: i32 = -1;

/// How many elements are tested together.
const BLOCK: usize = 128;

/// Whether no element passes. There is no branch between them, so that many are tested together.
#[inline(always)]
fn passes_none<X: Copy, T: Single<X, bool>>(xs: &[X]) -> bool
    ensures { result ≡ list_all (λ x. not (T.value x)) xs.now }
{
    let mut none = true;
    for x in xs {
        none &= !T::apply(*x);
    }
    none
}

/// How many elements the blocks at the front have in which none passes.
fn count_passed_over<X: Copy, T: Single<X, bool>>(xs: &[X]) -> usize
    ensures within { result ≤ length xs.now }
    ensures none { list_all (λ x. not (T.value x)) (take result xs.now) ≡ true }
{
    let mut over = 0;
    while xs.len() - over >= BLOCK && passes_none::<X, T>(&xs[over..over + BLOCK]) {
        over += BLOCK;
    }
    over
}

/// The place of the first element that passes, if there is one, element by element.
fn first_in_turn<X: Copy, T: Single<X, bool>>(xs: &[X]) -> Option<usize>
    ensures value { result ≡ position T.value xs.now }
    ensures within { IfSome result (λ place. place < length xs.now) }
{
    xs.iter().position(|x| T::apply(*x))
}

/// The place of the first element that passes, if there is one: it is in the first block that has one.
fn first_place<X: Copy, T: Single<X, bool>>(xs: &[X]) -> Option<usize>
    ensures value { result ≡ position T.value xs.now }
    ensures within { IfSome result (λ place. place < length xs.now) }
{
    let over = count_passed_over::<X, T>(xs);
    let place = first_in_turn::<X, T>(&xs[over..])?;
    Some(over + place)
}

/// The place of the first of at most 2,147,483,647 elements that passes, or `NONE`.
pub fn first_that<X: Copy, T: Single<X, bool>>(xs: &[X]) -> i32
    requires { length xs.now ≤ most_places }
    ensures { result ≡ first_by T.value xs.now }
{
    match first_place::<X, T>(xs) {
        Some(place) => place as i32,
        None => NONE,
    }
}

/// The place of the first element that passes.
struct FirstThat<T> {
    test: PhantomData<T>,
}

impl<X: Copy, T: Single<X, bool>> SegmentValue<X, i32> for FirstThat<T> {
    ghost value = { first_by T.value };

    fn of(segment: &[X]) -> i32 {
        first_that::<X, T>(segment)
    }
}

/// The place of the first element of each segment that passes, counted from the start of the segment, or `NONE`.
///
/// `LengthMismatch`, without a place, if the segments do not add up to the vector, or the room does not have a place for each
/// segment; it is then as before.
pub fn seg_first_that_over<X: Copy, T: Single<X, bool>>(
    xs: &[X],
    d: &SegLengths,
    out: &mut [i32],
) -> Result<(), Fault>
    ensures { Overwrites (in_room (length out.old) (each_of (first_by T.value) xs.now d.now)) result out.old out.new }
{
    values_over::<X, i32, FirstThat<T>>(xs, d, out)
}

/// A flag passes if it is true.
struct IsTrue;

impl Single<bool, bool> for IsTrue {
    ghost value = { λ flag. flag };

    fn apply(flag: bool) -> bool {
        flag
    }
}

/// The place of the first true flag of at most 2,147,483,647, or `NONE`.
pub fn first_true(flags: &[bool]) -> i32
    requires { length flags.now ≤ most_places }
    ensures { result ≡ first_true_of flags.now }
{
    first_that::<bool, IsTrue>(flags)
}

/// The place of the first true flag of each segment, counted from the start of the segment, or `NONE`.
///
/// `LengthMismatch`, without a place, if the segments do not add up to the flags, or the room does not have a place for each
/// segment; it is then as before.
pub fn seg_first_true_over(flags: &[bool], d: &SegLengths, out: &mut [i32]) -> Result<(), Fault>
    ensures { Overwrites (in_room (length out.old) (each_of first_true_of flags.now d.now)) result out.old out.new }
{
    seg_first_that_over::<bool, IsTrue>(flags, d, out)
}
