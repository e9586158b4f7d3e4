//! The tokens of a line.

ghost use Rattle.std.specs.Prelude.{◌≡◌, ◌<◌, ◌==◌, is_some, length, position, IfSome};
ghost use Rattle.std.specs.List.{list_all};
ghost use Rattle.line_reader.specs.Lines.{line_class, line_tokens, before_comment, begins_with_equals, is_arg, is_boolean_token};
ghost use Rattle.line_reader.specs.Lines.{is_number_token};
ghost use Rattle.cvl_base.specs.Words.{is_name};

use crate::token::{ByteClass, Classes, first_token};
use cvl_base::name::is_name_text;

/// The classes of the bytes of a line.
pub struct LineClasses;

impl Classes for LineClasses {
    ghost class_of = { line_class };

    fn class_of(byte: u8) -> ByteClass {
        if byte == b' ' || byte == b'\t' {
            ByteClass::Blank
        } else if byte == b'=' {
            ByteClass::Alone
        } else {
            ByteClass::InToken
        }
    }
}

/// The place of the first `#`, counted from 0.
fn comment_start(line: &[u8]) -> Option<usize>
    ensures first { result ≡ position (λ b. b == 35) line.now }
    ensures within { IfSome result (λ start. start < length line.now) }
{
    line.iter().position(|b| *b == b'#')
}

/// What stands before the first `#`.
#[tactic(auto, using(crate::proofs::Comments::cut_at_first, crate::proofs::Comments::whole_without))]
pub fn before_comment(line: &[u8]) -> &[u8]
    ensures { result.now ≡ before_comment line.now }
{
    match comment_start(line) {
        Some(start) => &line[..start],
        None => line,
    }
}

/// Whether the first token is `=`.
pub(crate) fn begins_with_equals(bytes: &[u8]) -> bool
    ensures { result ≡ begins_with_equals (line_tokens bytes.now) }
{
    match first_token::<LineClasses>(bytes) {
        None => false,
        Some((token, _)) => token == b"=".as_slice(),
    }
}

/// What a token may be where a line wants it.
pub(crate) trait TokenTest {
    ghost use Rattle.std.specs.Prelude.{ℕ, List, Bool};

    ghost passes: { List ℕ → Bool };

    /// Whether the token passes.
    fn passes(token: &[u8]) -> bool
        ensures { result ≡ passes token.now };
}

/// Names, as `write` takes them.
pub(crate) struct Names;

impl TokenTest for Names {
    ghost passes = { is_name };

    fn passes(token: &[u8]) -> bool {
        is_name_text(token)
    }
}

/// Arguments of a call: names, `T`, `F` and number tokens.
pub(crate) struct Arguments;

impl TokenTest for Arguments {
    ghost passes = { is_arg };

    fn passes(token: &[u8]) -> bool {
        is_argument(token)
    }
}

/// Whether the token is `T` or `F`.
pub fn is_boolean_token(token: &[u8]) -> bool
    ensures { result ≡ is_boolean_token token.now }
{
    token == b"T".as_slice() || token == b"F".as_slice()
}

/// Whether the token begins with a digit or `-`.
fn is_number_token(token: &[u8]) -> bool
    ensures { result ≡ is_number_token token.now }
{
    match token.first() {
        None => false,
        Some(first) => first.is_ascii_digit() || *first == b'-',
    }
}

/// Whether the token may be an argument: a name, `T`, `F`, or one that begins as a number does.
pub fn is_argument(token: &[u8]) -> bool
    ensures { result ≡ is_arg token.now }
{
    is_name_text(token) || is_boolean_token(token) || is_number_token(token)
}

/// The number of tokens, where each passes the test; none where one doesn't.
pub(crate) fn count_passing<T: TokenTest>(bytes: &[u8]) -> Option<usize>
    ensures passed { is_some result ≡ list_all T.passes (line_tokens bytes.now) }
    ensures count { IfSome result (λ count. count ≡ length (line_tokens bytes.now)) }
{
    let mut count = 0;
    let mut rest = bytes;
    while let Some((token, others)) = first_token::<LineClasses>(rest) {
        if !T::passes(token) {
            return None;
        }
        count += 1;
        rest = others;
    }
    Some(count)
}
