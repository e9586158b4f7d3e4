//! An argument of another kind than a call takes, in words.

ghost use Rattle.std.specs.Prelude.{◌≡◌, ◌++◌, [], find, length, option_map, OnOk};
ghost use Rattle.std.specs.List.{enumerate_from};
ghost use Rattle.std.specs.Option.{option_map_or};
ghost use Rattle.explained_calls.specs.Sentences.{indented};
ghost use Rattle.explained_values.specs.Arguments.{line_of};
ghost use Rattle.explained_values.specs.KindFaults.{holding_words, holds_words, is_refused, kind_fault_words};
ghost use Rattle.explained_values.specs.KindFaults.{noun, operand_at, repeat_words, repeating, wanted_noun};

use crate::arguments::Argument;
use cvl_base::name::is_name_text;
use cvl_base::{Kind, Memory, NoResources, Op};
use explained_calls::{Line, Number, Spelling, Words, said};

/// What a value of a kind is, without an article.
fn noun(kind: Kind) -> &'static [u8]
    ensures { result.now ≡ noun kind }
{
    match kind {
        Kind::Integers => b"vector of integers",
        Kind::Booleans => b"vector of booleans",
        Kind::Descriptor => b"descriptor",
        Kind::Integer => b"single integer",
        Kind::Boolean => b"single boolean",
    }
}

/// The same, if there is a kind.
fn noun_of(kind: Option<Kind>) -> &'static [u8]
    ensures { result.now ≡ option_map_or noun kind [] }
{
    match kind {
        Some(kind) => noun(kind),
        None => b"",
    }
}

/// The kind that a call takes at a place.
fn operand_at(op: Op, place: usize) -> Option<Kind>
    ensures { result ≡ operand_at op place }
{
    op.operands().get(place).copied()
}

/// What a call takes at a place, without an article.
fn wanted_noun(op: Op, place: usize) -> &'static [u8]
    ensures { result.now ≡ wanted_noun op place }
{
    if !op.is_write() {
        noun_of(operand_at(op, place))
    } else if place == 0 {
        b"vector"
    } else {
        b"descriptor"
    }
}

/// Which call repeats a single value, if a vector of such values is wanted in its place.
fn repeating(kind: Option<Kind>, wanted: Option<Kind>) -> Option<&'static [u8]>
    ensures { option_map (λ call. call.now) result ≡ repeating kind wanted }
{
    match (kind, wanted) {
        (Some(Kind::Integer), Some(Kind::Integers)) => Some(b"dis_vuz".as_slice()),
        (Some(Kind::Boolean), Some(Kind::Booleans)) => Some(b"dis_vub".as_slice()),
        _ => None,
    }
}

/// What an argument holds, or that it is a single value of the line itself.
#[derive(Drop)]
struct Holds<'a> {
    word: &'a [u8],
    kind: Option<Kind>,
}

impl<'a> Words for Holds<'a> {
    ghost words = { λ holds. holds_words holds.word.now holds.kind };

    fn put<A: Memory>(&self, text: &mut Vec<u8, A>) -> Result<(), NoResources> {
        let held = noun_of(self.kind);
        if is_name_text(self.word) {
            said![b", ", self.word, b", holds a ", held].put(text)
        } else {
            said![b" is the ", held, b" ", self.word].put(text)
        }
    }
}

/// How to repeat a single value, if that helps.
#[derive(Drop)]
struct Repeat<'a> {
    word: &'a [u8],
    call: Option<&'static [u8]>,
}

impl<'a> Words for Repeat<'a> {
    ghost words = { λ repeat. repeat_words repeat.word.now (option_map (λ call. call.now) repeat.call) };

    fn put<A: Memory>(&self, text: &mut Vec<u8, A>) -> Result<(), NoResources> {
        match self.call {
            None => Ok(()),
            Some(call) => said![b"; `", call, b" ", self.word, b" N` makes N copies"].put(text),
        }
    }
}

/// Writes the line on an argument of another kind than the call takes.
fn put_holding<B: Memory>(
    op: Op,
    place: usize,
    word: &[u8],
    kind: Option<Kind>,
    text: &mut Vec<u8, B>,
) -> Result<(), NoResources>
    ensures { OnOk result (text.new.items ≡ text.old.items ++ indented (holding_words op place word.now kind)) }
{
    let (number, holds) = (Number(place as u128 + 1), Holds { word, kind });
    let wanted = wanted_noun(op, place);
    let call = repeating(kind, operand_at(op, place));
    let repeat = Repeat { word, call };
    let words = said![
        b"argument ",
        number,
        holds,
        b", and ",
        Spelling(op),
        b" takes a ",
        wanted,
        repeat
    ];
    Line(words).put(text)
}

/// Whether the call takes no value of an argument's kind at its place among so many.
fn is_refused<A: Memory>(op: Op, count: usize, place: usize, argument: &Argument<'_, A>) -> bool
    ensures { result ≡ is_refused op count (place, argument.now) }
{
    match argument.kind() {
        Some(kind) => !op.accepts(count, place, kind),
        None => false,
    }
}

/// The first argument of a kind that the call does not take, with its place.
fn refused<'s, 'a, A: Memory>(
    op: Op,
    arguments: &'s [Argument<'a, A>],
) -> Option<(usize, &'s Argument<'a, A>)>
    ensures { option_map (λ placed. (placed.0, placed.1.now)) result
        ≡ find (is_refused op (length arguments.now)) (enumerate_from 0 arguments.now) }
{
    let count = arguments.len();
    for (place, argument) in arguments.iter().enumerate() {
        if is_refused(op, count, place, argument) {
            return Some((place, argument));
        }
    }
    None
}

/// Writes the line on the first argument of another kind than the call takes.
pub(crate) fn put_kind_fault<A: Memory, B: Memory>(
    op: Op,
    arguments: &[Argument<'_, A>],
    text: &mut Vec<u8, B>,
) -> Result<(), NoResources>
    ensures { OnOk result (text.new.items ≡ text.old.items ++ line_of (kind_fault_words op arguments.now)) }
{
    match refused(op, arguments) {
        None => Ok(()),
        Some(found) => put_holding(op, found.0, found.1.word(), found.1.kind(), text),
    }
}
