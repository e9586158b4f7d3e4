//! A name that is not bound, and names that are too many, in words.

ghost use Rattle.std.specs.Prelude.{◌≡◌, ◌++◌, Some, find, is_none, map, option_copied, option_map, OnOk};
ghost use Rattle.explained_calls.specs.Sentences.{indented};
ghost use Rattle.explained_values.specs.Arguments.{line_of};
ghost use Rattle.explained_values.specs.NameFaults.{different, far_words, is_among, near_words};
ghost use Rattle.explained_values.specs.NameFaults.{new_word, room_words, unbound_name_words, unbound_words};

use crate::arguments::Argument;
use cvl_base::{Memory, NoResources, Op, op_of};
use explained_calls::{Counted, Line, Number, Spelling, Words, near, said};

/// The words to add if no name is near.
fn far_words(names: &[&[u8]]) -> &'static [u8]
    ensures { result.now ≡ far_words (map (λ name. name.now) names.now) }
{
    match names.split_first() {
        None => b", and no name is bound",
        Some(_) => b"",
    }
}

/// The bound name that is near, if one is.
#[derive(Drop)]
struct Near<'n> {
    names: &'n [&'n [u8]],
    name: Option<&'n [u8]>,
}

impl<'n> Words for Near<'n> {
    ghost words = { λ near. near_words (map (λ name. name.now) near.names.now) (option_map (λ name. name.now) near.name) };

    fn put<A: Memory>(&self, text: &mut Vec<u8, A>) -> Result<(), NoResources> {
        match self.name {
            None => far_words(self.names).put(text),
            Some(name) => said![b"; the nearest name is ", name].put(text),
        }
    }
}

/// Writes the line about a name that is not bound: a call, or a name with a bound one that is near.
fn put_unbound_name<B: Memory>(
    alloc: B,
    names: &[&[u8]],
    op: Op,
    word: &[u8],
    text: &mut Vec<u8, B>,
) -> Result<(), NoResources>
    ensures { OnOk result (text.new.items
        ≡ text.old.items ++ indented (unbound_name_words (map (λ name. name.now) names.now) op word.now)) }
{
    if op_of(word).is_some() {
        let end = b" takes names of values and not calls: bind its result first";
        return Line(said![word, b" is a call, and ", Spelling(op), end]).put(text);
    }
    let name = near(alloc, word, names)?;
    Line(said![word, b" is not bound", Near { names, name }]).put(text)
}

/// The first argument without a value.
fn unbound<'s, 'a, A: Memory>(arguments: &'s [Argument<'a, A>]) -> Option<&'s Argument<'a, A>>
    ensures { option_copied result ≡ find (λ argument. is_none argument.value) arguments.now }
{
    arguments.iter().find(|argument| argument.kind().is_none())
}

/// Writes the line about the first argument whose name is not bound.
pub(crate) fn put_unbound<A: Memory, B: Memory>(
    alloc: B,
    names: &[&[u8]],
    op: Op,
    arguments: &[Argument<'_, A>],
    text: &mut Vec<u8, B>,
) -> Result<(), NoResources>
    ensures { OnOk result (text.new.items
        ≡ text.old.items ++ line_of (unbound_words (map (λ name. name.now) names.now) op arguments.now)) }
{
    match unbound(arguments) {
        None => Ok(()),
        Some(argument) => put_unbound_name(alloc, names, op, argument.word(), text),
    }
}

/// Whether a word is among others.
fn is_among(word: &[u8], words: &[&[u8]]) -> bool
    ensures { result ≡ is_among word.now (map (λ word. word.now) words.now) }
{
    for other in words {
        if *other == word {
            return true;
        }
    }
    false
}

/// What a word adds to the number of different ones: nothing, if it is among those behind it.
fn new_word(word: &[u8], behind: &[&[u8]]) -> usize
    ensures { result ≡ new_word word.now (map (λ word. word.now) behind.now) }
{
    if is_among(word, behind) { 0 } else { 1 }
}

/// How many different words there are.
fn different(words: &[&[u8]]) -> usize
    ensures { result ≡ different (map (λ word. word.now) words.now) }
{
    let mut count = 0;
    for place in 0..words.len() {
        let (_before, behind) = words.split_at(place + 1);
        count += new_word(words[place], behind);
    }
    count
}

/// Writes the line about names that are too many.
pub(crate) fn put_too_many<B: Memory>(
    names: &[&[u8]],
    op: Op,
    text: &mut Vec<u8, B>,
) -> Result<(), NoResources>
    ensures { OnOk result (text.new.items
        ≡ text.old.items ++ line_of (Some (room_words (map (λ name. name.now) names.now) op))) }
{
    let names = Counted(different(names), b"name");
    let (middle, binds) = (b", and this line binds ", Number(op.binds()));
    let end = b": at most 4096 may be bound";
    Line(said![b"the lines before bind ", names, middle, binds, end]).put(text)
}
