//! The lengths of a call's arguments that must agree.

ghost use Rattle.std.specs.Prelude.{◌≡◌, ◌++◌, OnOk, find};
ghost use Rattle.explained_values.specs.Arguments.{line_of};
ghost use Rattle.explained_values.specs.Extents.{amount_of, differ, extent_words};
ghost use Rattle.explained_values.specs.Extents.{extents_of, mismatch_words, permuted_extents};

use crate::arguments::{Argument, spelled_at};
use crate::segments::total_of;
use cvl_base::{Cut, Form, Memory, NoResources, Op};
use explained_calls::{Counted, Words, said};

/// A length of the argument at a place, counted from 0.
#[derive(Clone, Copy)]
pub enum Extent {
    /// How many elements a vector has.
    Elements(usize),
    /// How many segments a descriptor has.
    Segments(usize),
    /// How many elements the segments of a descriptor have in all.
    Total(usize),
}

use Extent::{Elements, Segments, Total};

/// The lengths that a call compares, in its order.
fn extents_of(op: Op) -> &'static [(Extent, Extent)]
    ensures { result.now ≡ extents_of op }
{
    match op {
        Op::Ints2(_) | Op::Compare(_) | Op::Bools2(_) => &[(Elements(0), Elements(1))],
        Op::Choose(_) => &[(Elements(0), Elements(1)), (Elements(0), Elements(2))],
        Op::Scan(_, Cut::Segmented)
        | Op::Reduce(_, Cut::Segmented)
        | Op::CheckedScan(Cut::Segmented)
        | Op::CheckedReduce(Cut::Segmented)
        | Op::BoolScan(_, Cut::Segmented)
        | Op::BoolReduce(_, Cut::Segmented)
        | Op::Count(Cut::Segmented)
        | Op::PackedLengths
        | Op::Write => &[(Total(1), Elements(0))],
        Op::Permute(form, cut, _) => permuted_extents(form, cut),
        Op::Pack(Cut::Flat, _) => &[(Elements(0), Elements(1))],
        Op::Pack(Cut::Segmented, _) => &[(Total(2), Elements(0)), (Total(2), Elements(1))],
        Op::Distribute(Cut::Segmented, _) => &[(Elements(0), Segments(1))],
        Op::Index(Cut::Segmented) => &[(Elements(0), Elements(1)), (Elements(0), Segments(2))],
        Op::Extract(Cut::Segmented, _) => &[(Total(2), Elements(0)), (Segments(2), Elements(1))],
        Op::Replace(Cut::Segmented, _) => {
            &[
                (Total(3), Elements(0)),
                (Segments(3), Elements(1)),
                (Segments(3), Elements(2)),
            ]
        }
        _ => &[],
    }
}

/// The lengths that a permute compares, in its order.
fn permuted_extents(form: Form, cut: Cut) -> &'static [(Extent, Extent)]
    ensures { result.now ≡ permuted_extents form cut }
{
    match (form, cut) {
        (Form::Simple, Cut::Flat) | (Form::Default, Cut::Flat) => &[(Elements(0), Elements(1))],
        (Form::Simple, Cut::Segmented) => &[(Total(2), Elements(0)), (Total(2), Elements(1))],
        (Form::Back, Cut::Flat) => &[],
        (Form::Back, Cut::Segmented) => {
            &[
                (Total(2), Elements(0)),
                (Total(3), Elements(1)),
                (Segments(2), Segments(3)),
            ]
        }
        (Form::Select, Cut::Flat) => &[(Elements(0), Elements(1)), (Elements(1), Elements(2))],
        (Form::Select, Cut::Segmented) => {
            &[
                (Total(3), Elements(0)),
                (Total(3), Elements(1)),
                (Total(3), Elements(2)),
            ]
        }
        (Form::Default, Cut::Segmented) => &[
            (Total(3), Elements(0)),
            (Total(3), Elements(1)),
            (Total(4), Elements(2)),
            (Segments(3), Segments(4)),
        ],
    }
}

/// The length itself.
fn amount_of<A: Memory>(arguments: &[Argument<'_, A>], extent: Extent) -> usize
    ensures { result ≡ amount_of arguments.now extent }
{
    match extent {
        Elements(place) => spelled_at(arguments, place).elements(),
        Segments(place) => spelled_at(arguments, place).lengths().len(),
        Total(place) => total_of(spelled_at(arguments, place).lengths()),
    }
}

/// Writes what has which length: `v has 8 elements`.
fn put_extent<A: Memory, B: Memory>(
    arguments: &[Argument<'_, A>],
    extent: Extent,
    text: &mut Vec<u8, B>,
) -> Result<(), NoResources>
    ensures { OnOk result (text.new.items ≡ text.old.items ++ extent_words arguments.now extent) }
{
    let (place, thing, end): (usize, &[u8], &[u8]) = match extent {
        Elements(place) => (place, b"element", b""),
        Segments(place) => (place, b"segment", b""),
        Total(place) => (place, b"element", b" in all"),
    };
    let amount = Counted(amount_of(arguments, extent), thing);
    said![spelled_at(arguments, place).word(), b" has ", amount, end].put(text)
}

/// The first two lengths that do not agree.
fn differing<A: Memory>(op: Op, arguments: &[Argument<'_, A>]) -> Option<(Extent, Extent)>
    ensures { result ≡ find (differ arguments.now) (extents_of op) }
{
    extents_of(op).iter().copied().find(|pair| amount_of(arguments, pair.0)
        != amount_of(arguments, pair.1))
}

/// Writes the line about the first two lengths that do not agree, if there are such.
pub(crate) fn put_mismatch<A: Memory, B: Memory>(
    op: Op,
    arguments: &[Argument<'_, A>],
    text: &mut Vec<u8, B>,
) -> Result<(), NoResources>
    ensures { OnOk result (text.new.items ≡ text.old.items ++ line_of (mismatch_words op arguments.now)) }
{
    let Some(pair) = differing(op, arguments) else {
        return Ok(());
    };
    b"  ".put(text)?;
    put_extent(arguments, pair.0, text)?;
    b", and ".put(text)?;
    put_extent(arguments, pair.1, text)?;
    b": these must agree\n".put(text)
}
