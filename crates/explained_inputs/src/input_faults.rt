//! What is wrong with an input, in words.

ghost use Rattle.std.specs.Prelude.{◌≡◌, ◌++◌, OnOk, option_copied};
ghost use Rattle.explained_calls.specs.Sentences.{indented};
ghost use Rattle.explained_inputs.specs.InputFaults.{bytes_words, end_words, expected_words, input_fault_words, many_words};
ghost use Rattle.explained_inputs.specs.InputFaults.{nested_words, no_integer_words, position_words, quoted, stray_words};

use crate::token_places::{column_at, count_of, line_at};
use call_reader::{InputBytes, NestedBytes};
use cvl_base::{Memory, NoResources};
use explained_calls::{Line, Number, Shortened, Shown, Token, Words, said, token_at};

/// The file's name with the line and the column of a place: `numbers:3:7: `.
#[derive(Drop)]
struct Position<'a> {
    file: &'a [u8],
    bytes: &'a [u8],
    place: usize,
}

impl<'a> Words for Position<'a> {
    ghost words = { λ position. position_words position.file.now position.bytes.now position.place };

    fn put<A: Memory>(&self, text: &mut Vec<u8, A>) -> Result<(), NoResources> {
        let line = Number(line_at(self.bytes, self.place));
        let column = Number(column_at(self.bytes, self.place));
        said![Shown(self.file), b":", line, b":", column, b": "].put(text)
    }
}

/// A token in quotation marks; a long one as its first 40 bytes.
#[derive(Drop)]
struct Quoted<'a>(&'a [u8]);

impl<'a> Words for Quoted<'a> {
    ghost words = { λ token. quoted token.0.now };

    fn put<A: Memory>(&self, text: &mut Vec<u8, A>) -> Result<(), NoResources> {
        said![b"\"", Shortened(self.0), b"\""].put(text)
    }
}

/// What reads a token that begins as a list of lists does.
fn nested_words(token: &[u8]) -> &'static [u8]
    ensures { result.now ≡ nested_words token.now }
{
    match token.split_first() {
        None => b"",
        Some((first, _)) => {
            if *first == b'[' {
                b"; nested reads lists of lists"
            } else {
                b""
            }
        }
    }
}

/// That a token is no integer.
#[derive(Drop)]
struct NoInteger<'a>(&'a [u8]);

impl<'a> Words for NoInteger<'a> {
    ghost words = { λ token. no_integer_words token.0.now };

    fn put<A: Memory>(&self, text: &mut Vec<u8, A>) -> Result<(), NoResources> {
        let middle = b" is no integer from -2147483648 to 2147483647";
        said![Quoted(self.0), middle, nested_words(self.0)].put(text)
    }
}

/// What may stand at a place of a nested text after so many tokens.
fn expected_words(bytes: &[u8], number: usize, place: usize) -> &'static [u8]
    ensures { result.now ≡ expected_words bytes.now number place }
{
    if number == 0 {
        return b"\"[\"";
    }
    let opened = count_of(b'[', bytes, place);
    let closed = count_of(b']', bytes, place);
    match opened.saturating_sub(closed) {
        0 => b"the end",
        1 => b"\"[\" or \"]\"",
        _ => b"an integer from -2147483648 to 2147483647 or \"]\"",
    }
}

/// Writes the line about a nested text that ends too early, after so many tokens.
fn put_end<B: Memory>(
    file: &[u8],
    bytes: &[u8],
    number: usize,
    text: &mut Vec<u8, B>,
) -> Result<(), NoResources>
    ensures { OnOk result (text.new.items ≡ text.old.items ++ indented (end_words file.now bytes.now number)) }
{
    let place = bytes.len();
    let expected = expected_words(bytes, number, place);
    let position = Position { file, bytes, place };
    let ends = b"the text ends where ";
    Line(said![position, ends, expected, b" is expected"]).put(text)
}

/// Writes the line about a token of a nested text, after so many tokens.
fn put_stray<B: Memory>(
    file: &[u8],
    bytes: &[u8],
    number: usize,
    token: &Token<'_>,
    text: &mut Vec<u8, B>,
) -> Result<(), NoResources>
    ensures { OnOk result (text.new.items ≡ text.old.items ++ indented (stray_words file.now bytes.now number token.now)) }
{
    let place = token.start();
    let expected = expected_words(bytes, number, place);
    let position = Position { file, bytes, place };
    let (stray, stands) = (Quoted(token.bytes()), b" stands where ");
    Line(said![position, stray, stands, expected, b" is expected"]).put(text)
}

/// Writes the line about a token, by its number, of a nested text or of an input of numbers.
fn put_bytes_fault<B: Memory>(
    is_nested: bool,
    file: &[u8],
    bytes: &[u8],
    number: usize,
    text: &mut Vec<u8, B>,
) -> Result<(), NoResources>
    ensures { OnOk result (text.new.items ≡ text.old.items ++ bytes_words is_nested file.now bytes.now number) }
{
    if is_nested {
        return match token_at::<NestedBytes>(bytes, number) {
            None => put_end(file, bytes, number, text),
            Some(token) => put_stray(file, bytes, number, &token, text),
        };
    }
    match token_at::<InputBytes>(bytes, number) {
        None => Ok(()),
        Some(token) => {
            let place = token.start();
            let position = Position { file, bytes, place };
            Line(said![position, NoInteger(token.bytes())]).put(text)
        }
    }
}

/// Of what an input that is too long has too many.
fn many_words(is_nested: bool) -> &'static [u8]
    ensures { result.now ≡ many_words is_nested }
{
    if is_nested {
        b" has more than 4194304 numbers or inner lists"
    } else {
        b" has more than 4194304 numbers"
    }
}

/// Writes the line about an input at fault: the bytes of a file of this name, or none if it is a vector. The line has two spaces
/// before it and a line feed after it. `place` is the fault's: the number of a token, counted from 0, or none if the input is too
/// long.
///
/// The line has the file's name, the line and the column of the token, counted from 1 and in bytes, and the token, a long one as
/// its first 40 bytes; for a nested text also what was expected there.
pub fn put_input_fault<B: Memory>(
    is_nested: bool,
    file: &[u8],
    bytes: Option<&[u8]>,
    place: Option<u32>,
    text: &mut Vec<u8, B>,
) -> Result<(), NoResources>
    ensures { OnOk result (text.new.items
        ≡ text.old.items ++ input_fault_words is_nested file.now (option_copied bytes.entry) place) }
{
    match bytes {
        None if is_nested => {
            let words = b" is a vector, and nested reads a text";
            Line(said![Shown(file), words]).put(text)
        }
        None => Ok(()),
        Some(bytes) => match place {
            None => Line(said![Shown(file), many_words(is_nested)]).put(text),
            Some(token) => put_bytes_fault(is_nested, file, bytes, token as usize, text),
        },
    }
}
