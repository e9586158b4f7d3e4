//! Permutes into the caller's room, on the calling thread, for code that has no runtime.
//!
//! Each reports the faults of the permute first, and then `LengthMismatch`, without a place, if the room is not as long as the
//! result. Only then does it write to the room. A back permute takes no memory. If the index of a long permute jumps from place
//! to place, a simple and a default permute take a bit for each place of the result, and 4 bytes a place for the senders only to
//! find the first fault. Else a simple permute takes a byte a place; a default permute, like every select permute, takes the 4
//! bytes a place.

ghost use Rattle.std.specs.Prelude.{◌≡◌, ◌≤◌, IfOk, IsTrue, List, None, Result, length};
ghost use Rattle.cvl_base.specs.declared.fault.Fault.{Fault};
ghost use Rattle.cvl_base.specs.Limits.{most_places};
ghost use Rattle.cvl_base.specs.Permutes.{all_destinations, back_of, default_of, first_fault, select_of, simple_of, wrongs};
ghost use Rattle.cvl_base.specs.Rooms.{Overwrites, OverwritesOr, in_room};
ghost use Rattle.permute_walks.specs.Before.{MayStand, values_of};
ghost use Rattle.permutes.specs.FlatPermutes.{IsFlatPermute};

use crate::first_walk::senders_alone;
use crate::second_walk::elements_of_senders_over;
use cvl_base::{Fault, Memory, NoResources, Refused, check_agree, true_count};
use fresh::write_over;
use permute_scatters::{is_scattered, jumps, scatter};
use permute_walks::{
    AllDestinations, Before, Destinations, ElementsAt, FlaggedDestinations, check_places_alone,
    is_permutation, scatter_over,
};

/// A permute in two walks, the first of which finds the senders.
fn permuted_over<T: Copy, A: Memory, D: Destinations>(
    alloc: A,
    source: &[T],
    destinations: &D,
    before: Before<T>,
    out: &mut [T],
) -> Result<(), Refused>
    requires few { length (D.destinations destinations.now) ≤ most_places }
    ensures { (meaning : Result (List T) Fault)
        → IsFlatPermute source.now (D.destinations destinations.now) before.entry meaning
        → OverwritesOr (in_room (length out.old) meaning) result out.old out.new }
{
    let found = senders_alone(alloc, before.values().len(), destinations);
    elements_of_senders_over(source, found, before, out)
}

/// Copies the defaults into the room, if there are any.
fn let_stand<T: Copy>(before: &Before<T>, out: &mut [T])
    requires as_long { length out.old ≡ length (values_of before.now) }
    ensures stands { MayStand before.now out.new }
    ensures long { length out.new ≡ length out.old }
{
    if let Before::Defaults(values) = before {
        out.copy_from_slice(values);
    }
}

/// A permute of all elements. If the index jumps and has no fault, each element goes straight to its place; else the senders are
/// found.
fn all_permuted_over<T: Copy, A: Memory>(
    alloc: A,
    source: &[T],
    index: &[i32],
    before: Before<T>,
    out: &mut [T],
) -> Result<(), Refused>
    requires sourced { length source.now ≡ length index.now }
    requires few { length index.now ≤ most_places }
    ensures { (meaning : Result (List T) Fault) → IsFlatPermute source.now (all_destinations index.now) before.entry meaning
        → OverwritesOr (in_room (length out.old) meaning) result out.old out.new }
{
    let places = before.values().len();
    if is_scattered(alloc, index, places)? {
        check_agree(places, out.len())?;
        let_stand(&before, out);
        scatter(source, index, out);
        return Ok(());
    }
    permuted_over(alloc, source, &AllDestinations { index }, before, out)
}

/// Whether the index does not jump and is a permutation of its own places. `NoResources` without memory for a byte a place.
fn is_permutation_along<A: Memory>(alloc: A, index: &[i32]) -> Result<bool, NoResources>
    requires in_limit { length index.now ≤ most_places }
    ensures { IfOk result (λ is. IsTrue is → None ≡ first_fault 0 (wrongs (length index.now) (all_destinations index.now))) }
{
    if jumps(index) {
        return Ok(false);
    }
    is_permutation(alloc, index)
}

/// [`simple`](crate::simple) into a room.
pub fn simple_over<T: Copy, A: Memory>(
    alloc: A,
    source: &[T],
    index: &[i32],
    out: &mut [T],
) -> Result<(), Refused>
    requires in_limit { length index.now ≤ most_places }
    ensures { OverwritesOr (in_room (length out.old) (simple_of source.now index.now)) result out.old out.new }
{
    check_agree(source.len(), index.len())?;
    if is_permutation_along(alloc, index)? {
        check_agree(index.len(), out.len())?;
        scatter_over(source, index, out);
        return Ok(());
    }
    all_permuted_over(alloc, source, index, Before::Any(source), out)
}

/// [`select`](crate::select) into a room.
pub fn select_over<T: Copy, A: Memory>(
    alloc: A,
    source: &[T],
    index: &[i32],
    flags: &[bool],
    out: &mut [T],
) -> Result<(), Refused>
    requires in_limit { length index.now ≤ most_places }
    ensures { OverwritesOr (in_room (length out.old) (select_of source.now index.now flags.now)) result out.old out.new }
{
    check_agree(source.len(), index.len())?;
    check_agree(index.len(), flags.len())?;
    let destinations = FlaggedDestinations { index, flags };
    let (values, _) = source.split_at(true_count(flags));
    permuted_over(alloc, source, &destinations, Before::Any(values), out)
}

/// [`default_into`](crate::default_into) into a room.
pub fn default_into_over<T: Copy, A: Memory>(
    alloc: A,
    source: &[T],
    index: &[i32],
    defaults: &[T],
    out: &mut [T],
) -> Result<(), Refused>
    requires in_limit { length index.now ≤ most_places }
    ensures { OverwritesOr (in_room (length out.old) (default_of source.now index.now defaults.now)) result out.old out.new }
{
    check_agree(source.len(), index.len())?;
    all_permuted_over(alloc, source, index, Before::Defaults(defaults), out)
}

/// [`back`](crate::back) into a room.
pub fn back_over<T: Copy>(source: &[T], index: &[i32], out: &mut [T]) -> Result<(), Fault>
    requires in_limit { length index.now ≤ most_places }
    ensures { Overwrites (in_room (length out.old) (back_of source.now index.now)) result out.old out.new }
{
    check_places_alone(index, source.len(), 0)?;
    check_agree(index.len(), out.len())?;
    write_over(out, &ElementsAt { source, index });
    Ok(())
}
