//! A line that has none of the forms of a line, in words.

ghost use Rattle.std.specs.Prelude.{◌≡◌, ◌++◌, option_map, OnOk};
ghost use Rattle.explained_calls.specs.LineFaults.{bad_line_words, hint_words, name_pair, pair_words, reason_words, wanted_words};
ghost use Rattle.explained_calls.specs.Misplaced.{hint_of};
ghost use Rattle.explained_calls.specs.Sentences.{indented};

use crate::misplaced::hint_of;
use crate::placed_tokens::Token;
use crate::said;
use crate::wanted::{Hint, Reason, Wanted};
use crate::words::{Line, Number, When, Words};
use cvl_base::name::is_name_text;
use cvl_base::{Memory, NoResources, op_of};

impl Words for Wanted {
    ghost words = { wanted_words };

    fn put<A: Memory>(&self, text: &mut Vec<u8, A>) -> Result<(), NoResources> {
        match self {
            Wanted::Name => b"a name".put(text),
            Wanted::EqualsOrName => b"= or a name".put(text),
            Wanted::OtherName => b"another name than the first".put(text),
            Wanted::Equals => b"=".put(text),
            Wanted::Call => b"a call".put(text),
            Wanted::Argument => b"a name, a number, T or F".put(text),
        }
    }
}

impl Words for Reason {
    ghost words = { reason_words };

    fn put<A: Memory>(&self, text: &mut Vec<u8, A>) -> Result<(), NoResources> {
        match self {
            Reason::Other => Ok(()),
            Reason::TooLong(bytes) => {
                let most = b"; a name has at most 32 bytes, and this one has ";
                said![most, Number(*bytes)].put(text)
            }
            Reason::Reserved => b"; write, T and F cannot be names".put(text),
            Reason::NoName => {
                b"; a name is a letter, and then letters, digits and underscores".put(text)
            }
            Reason::Parenthesis => {
                b"; a line makes one call, without parentheses or commas".put(text)
            }
            Reason::ByteOrderMark => {
                b"; the line begins with a byte order mark, which has to go".put(text)
            }
        }
    }
}

/// Where a line breaks the form of a line.
impl Words for Hint {
    ghost words = { hint_words };

    fn put<A: Memory>(&self, text: &mut Vec<u8, A>) -> Result<(), NoResources> {
        let column = Number(self.place as u128 + 1);
        let end = When(self.ends, b", but the line ends");
        said![
            b"column ",
            column,
            b": expected ",
            self.wanted,
            end,
            self.reason
        ]
        .put(text)
    }
}

/// The two names that a line has, if it has nothing else.
fn name_pair<'l>(tokens: &[Token<'l>]) -> Option<(&'l [u8], &'l [u8])>
    ensures { option_map (λ pair. (pair.0.now, pair.1.now)) result ≡ name_pair tokens.now }
{
    match tokens {
        [first, second] => {
            if is_name_text(first.bytes()) && is_name_text(second.bytes()) {
                Some((first.bytes(), second.bytes()))
            } else {
                None
            }
        }
        _ => None,
    }
}

/// Appends what a line of two names lacks: a binding, if the first is a call, and else the word `write`.
fn put_pair<A: Memory>(
    first: &[u8],
    second: &[u8],
    text: &mut Vec<u8, A>,
) -> Result<(), NoResources>
    ensures { OnOk result (text.new.items ≡ text.old.items ++ indented (pair_words first.now second.now)) }
{
    if op_of(first).is_some() {
        let end = b"` binds no name: a call stands behind a name and =";
        Line(said![b"`", first, b" ", second, end]).put(text)
    } else {
        let (middle, end) = (b"` is no binding; `write ", b"` shows a value");
        Line(said![b"`", first, b" ", second, middle, second, end]).put(text)
    }
}

/// Appends what is wrong with a line that has none of the forms of a line.
pub(crate) fn put_bad_line<A: Memory>(
    tokens: &[Token<'_>],
    text: &mut Vec<u8, A>,
) -> Result<(), NoResources>
    ensures { OnOk result (text.new.items ≡ text.old.items ++ bad_line_words (name_pair tokens.now) (hint_of tokens.now)) }
{
    match name_pair(tokens) {
        Some((first, second)) => put_pair(first, second, text),
        None => match hint_of(tokens) {
            Some(hint) => Line(hint).put(text),
            None => Ok(()),
        },
    }
}
