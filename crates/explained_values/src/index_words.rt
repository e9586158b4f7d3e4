//! What an index points into, and the earlier index that is the same.

ghost use Rattle.std.specs.Prelude.{◌≡◌, ◌++◌, OnOk, drop, take};
ghost use Rattle.cvl_base.specs.Packs.{count_of};
ghost use Rattle.bound_names.specs.Arguments.{lengths_in};
ghost use Rattle.explained_values.specs.IndexWords.{amount_in, first_place, first_sender};
ghost use Rattle.explained_values.specs.IndexWords.{has_flags, places_words, repeated_words, target_of};
ghost use Rattle.explained_values.specs.IndexWords.{same_before, same_flagged_before};

use crate::arguments::{Argument, spelled_at};
use crate::segments::{Part, length_at, places_of, segment_at, start_at, start_of};
use crate::sentences::Element;
use cvl_base::{Form, Memory, NoResources, Op, true_count};
use explained_calls::{Counted, Words, said};

/// What an index points into, by the places of the arguments.
#[derive(Clone, Copy)]
pub struct Target {
    /// The vector.
    pub vector: usize,
    /// The descriptor that cuts it, if the call takes its vectors by segments.
    pub descriptor: usize,
    /// Whether it points only to true flags.
    pub true_ones: bool,
}

/// What the index of a call points into.
fn target_of(op: Op) -> Target
    ensures { result ≡ target_of op }
{
    let (vector, descriptor, true_ones) = match op {
        Op::Permute(Form::Select, _, _) => (2, 3, true),
        Op::Permute(Form::Default, _, _) => (2, 4, false),
        Op::Replace(_, _) => (0, 3, false),
        _ => (0, 2, false),
    };
    Target {
        vector,
        descriptor,
        true_ones,
    }
}

/// How many of `count` flags from a place on are true.
fn true_in(flags: &[bool], start: usize, count: usize) -> usize
    ensures { result ≡ count_of (take count (drop start flags.now)) }
{
    flags
        .iter()
        .skip(start)
        .take(count)
        .filter(|flag| **flag)
        .count()
}

/// How many elements, or true flags, there are in the vector or in a segment of it.
fn amount_in<A: Memory>(
    target: Target,
    segment: Option<usize>,
    vector: &Argument<'_, A>,
    descriptor: &Argument<'_, A>,
) -> usize
    ensures { result ≡ amount_in target segment vector.now (lengths_in descriptor.now.value) }
{
    match segment {
        None if target.true_ones => true_count(vector.booleans()),
        None => vector.elements(),
        Some(segment) if target.true_ones => {
            let start = start_of(descriptor.lengths(), segment);
            let count = length_at(descriptor.lengths(), segment);
            true_in(vector.booleans(), start, count)
        }
        Some(segment) => length_at(descriptor.lengths(), segment),
    }
}

/// Writes what an index points into: `v has 8 elements`, `segment 1 of flags has 1 true flag`.
pub(crate) fn put_places<A: Memory, B: Memory>(
    op: Op,
    arguments: &[Argument<'_, A>],
    place: usize,
    text: &mut Vec<u8, B>,
) -> Result<(), NoResources>
    ensures { OnOk result (text.new.items ≡ text.old.items ++ places_words op arguments.now place) }
{
    let target = target_of(op);
    let segment = segment_at(places_of(op), arguments, place);
    let argument = spelled_at(arguments, target.vector);
    let descriptor = spelled_at(arguments, target.descriptor);
    let thing: &[u8] = if target.true_ones {
        b"true flag"
    } else {
        b"element"
    };
    let amount = amount_in(target, segment, &argument, &descriptor);
    let vector = argument.word();
    said![Part { segment, vector }, b" has ", Counted(amount, thing)].put(text)
}

/// How far after the start the first place before another has this index.
fn same_before(index: &[i32], start: usize, place: usize, number: i32) -> Option<usize>
    ensures { result ≡ same_before index.now start place number }
{
    index
        .iter()
        .take(place)
        .skip(start)
        .position(|j| *j == number)
}

/// The same among places whose flag is true.
fn same_flagged_before(
    index: &[i32],
    flags: &[bool],
    start: usize,
    place: usize,
    number: i32,
) -> Option<usize>
    ensures { result ≡ same_flagged_before index.now flags.now start place number }
{
    index
        .iter()
        .zip(flags)
        .take(place)
        .skip(start)
        .position(|(j, flag)| *flag && *j == number)
}

/// Whether a permute takes only the places whose flag is true.
fn has_flags(op: Op) -> bool
    ensures { result ≡ has_flags op }
{
    matches!(op, Op::Permute(Form::Select, _, _))
}

/// The first place of the same segment, before this one, with this index.
fn first_sender<A: Memory>(
    op: Op,
    arguments: &[Argument<'_, A>],
    place: usize,
    number: i32,
) -> Option<usize>
    ensures { result ≡ first_sender op arguments.now place number }
{
    let index = spelled_at(arguments, 1).integers();
    let start = start_at(places_of(op), arguments, place);
    let behind = if has_flags(op) {
        let flags = spelled_at(arguments, 2).booleans();
        same_flagged_before(index, flags, start, place, number)
    } else {
        same_before(index, start, place, number)
    };
    match behind {
        Some(behind) => Some(start + behind),
        None => None,
    }
}

/// The first place that has the same index as this one.
fn first_place<A: Memory>(op: Op, arguments: &[Argument<'_, A>], place: usize) -> Option<usize>
    ensures { result ≡ first_place op arguments.now place }
{
    match spelled_at(arguments, 1).integer_at(place) {
        Some(number) => first_sender(op, arguments, place, number),
        None => None,
    }
}

/// Writes which earlier index is the same, if one is: `, which index[1] sent to before`.
pub(crate) fn put_repeated<A: Memory, B: Memory>(
    op: Op,
    arguments: &[Argument<'_, A>],
    place: usize,
    text: &mut Vec<u8, B>,
) -> Result<(), NoResources>
    ensures { OnOk result (text.new.items ≡ text.old.items ++ repeated_words op arguments.now place) }
{
    let Some(first) = first_place(op, arguments, place) else {
        return Ok(());
    };
    let sender = Element(spelled_at(arguments, 1).word(), first);
    said![b", which ", sender, b" sent to before"].put(text)
}
