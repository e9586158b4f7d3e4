//! Why a token may not stand where something else is wanted.

ghost use Rattle.std.specs.Prelude.{◌≡◌};
ghost use Rattle.std.specs.List.{list_all, list_any};
ghost use Rattle.cvl_base.specs.Words.{is_word_byte};
ghost use Rattle.explained_calls.specs.Reasons.{call_reason, is_marked, is_punctuation, is_reserved};
ghost use Rattle.explained_calls.specs.Reasons.{is_spelled_as_name, name_reason, reason_of, word_reason};
ghost use Rattle.explained_calls.specs.declared.wanted.Reason.{Reason};

use crate::placed_tokens::Token;
use crate::shown::first_bytes;
use crate::wanted::{Reason, Wanted};

/// Whether a token is `write`, `T` or `F`.
fn is_reserved(token: &[u8]) -> bool
    ensures { result ≡ is_reserved token.now }
{
    token == b"write".as_slice() || token == b"T".as_slice() || token == b"F".as_slice()
}

/// Whether bytes are letters, digits and underscores.
fn are_word_bytes(bytes: &[u8]) -> bool
    ensures { result ≡ list_all is_word_byte bytes.now }
{
    bytes
        .iter()
        .all(|b| b.is_ascii_alphanumeric() || *b == b'_')
}

/// Whether a token is a letter, followed by letters, digits and underscores, however many.
fn is_spelled_as_name(token: &[u8]) -> bool
    ensures { result ≡ is_spelled_as_name token.now }
{
    match token.split_first() {
        None => false,
        Some((first, others)) => {
            let begins = first.is_ascii_alphabetic();
            let goes_on = are_word_bytes(others);
            begins && goes_on
        }
    }
}

/// Whether a token has a parenthesis or a comma.
fn is_punctuated(token: &[u8]) -> bool
    ensures { result ≡ list_any is_punctuation token.now }
{
    token.iter().any(|b| *b == b'(' || *b == b')' || *b == b',')
}

/// Whether a token begins the line, and with a byte order mark.
fn is_marked(token: &Token<'_>) -> bool
    ensures { result ≡ is_marked token.now }
{
    token.start() == 0 && first_bytes(token.bytes(), 3) == b"\xef\xbb\xbf".as_slice()
}

/// Why a token is no call and no argument.
fn call_reason(token: &[u8]) -> Reason
    ensures { result ≡ call_reason token.now }
{
    if is_punctuated(token) {
        Reason::Parenthesis
    } else {
        Reason::Other
    }
}

/// Why a token is no name, as far as words tell; else this reason.
fn word_reason(otherwise: Reason, token: &[u8]) -> Reason
    ensures { result ≡ word_reason otherwise token.now }
{
    if is_reserved(token) {
        Reason::Reserved
    } else if is_spelled_as_name(token) {
        Reason::TooLong(token.len())
    } else {
        otherwise
    }
}

/// Why a token that is no word is no name.
fn name_reason(token: &Token<'_>) -> Reason
    ensures { result ≡ name_reason token.now }
{
    if is_marked(token) {
        Reason::ByteOrderMark
    } else if is_punctuated(token.bytes()) {
        Reason::Parenthesis
    } else {
        Reason::NoName
    }
}

/// Why a token is not what is wanted.
pub(crate) fn reason_of(wanted: Wanted, token: &Token<'_>) -> Reason
    ensures { result ≡ reason_of wanted token.now }
{
    match wanted {
        Wanted::Name => word_reason(name_reason(token), token.bytes()),
        Wanted::EqualsOrName => word_reason(Reason::Other, token.bytes()),
        Wanted::OtherName | Wanted::Equals => Reason::Other,
        Wanted::Call => call_reason(token.bytes()),
        Wanted::Argument => word_reason(call_reason(token.bytes()), token.bytes()),
    }
}
