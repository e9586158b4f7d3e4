//! Where a line breaks the form of a line.

ghost use Rattle.std.specs.Prelude.{◌≡◌, List, Option, Some, MatchResult};
ghost use Rattle.explained_calls.specs.declared.wanted.Hint.{Hint};
ghost use Rattle.explained_calls.specs.Misplaced.{begins_with_equals, hint_after_equals, hint_after_first, hint_after_names};
ghost use Rattle.explained_calls.specs.Misplaced.{hint_at, hint_of, is_equals, is_wanted, is_write_line, wanting, wanting_each};
ghost use Rattle.explained_calls.specs.PlacedTokens.{Placed};

use crate::placed_tokens::Token;
use crate::reasons::reason_of;
use crate::wanted::{Hint, Reason, Wanted};
use cvl_base::name::{is_name_text, is_word_text};
use line_reader::line_tokens::is_argument;

/// Whether the token is `=`.
pub(crate) fn is_equals(token: &[u8]) -> bool
    ensures { result ≡ is_equals token.now }
{
    token == b"=".as_slice()
}

/// Whether the token may stand where this is wanted.
fn is_wanted(wanted: Wanted, token: &[u8]) -> bool
    ensures { result ≡ is_wanted wanted token.now }
{
    match wanted {
        Wanted::Name | Wanted::OtherName => is_name_text(token),
        Wanted::EqualsOrName => is_equals(token) || is_name_text(token),
        Wanted::Equals => is_equals(token),
        Wanted::Call => is_word_text(token),
        Wanted::Argument => is_argument(token),
    }
}

/// The token is not what is wanted at its place.
fn hint_at(token: &Token<'_>, wanted: Wanted) -> Hint
    ensures { result ≡ hint_at token.now wanted }
{
    Hint {
        place: token.start(),
        ends: false,
        wanted,
        reason: reason_of(wanted, token),
    }
}

/// The first token, if it is what is wanted, and those behind it. They begin after this place.
fn wanting<'t, 'l>(
    wanted: Wanted,
    place: usize,
    tokens: &'t [Token<'l>],
) -> Result<(&'t Token<'l>, &'t [Token<'l>]), Hint>
    ensures { (rest : Placed → List Placed → Option Hint) → MatchResult result
        (λ t. wanting wanted place tokens.now rest ≡ rest t.0.now t.1.now)
        (λ hint. wanting wanted place tokens.now rest ≡ Some hint) }
{
    match tokens.split_first() {
        None => Err(Hint {
            place,
            ends: true,
            wanted,
            reason: Reason::Other,
        }),
        Some((token, others)) => {
            if is_wanted(wanted, token.bytes()) {
                Ok((token, others))
            } else {
                Err(hint_at(token, wanted))
            }
        }
    }
}

/// The first token that is not what is wanted of all of them.
fn wanting_each(wanted: Wanted, tokens: &[Token<'_>]) -> Option<Hint>
    ensures { result ≡ wanting_each wanted tokens.now }
{
    for token in tokens {
        if !is_wanted(wanted, token.bytes()) {
            return Some(hint_at(token, wanted));
        }
    }
    None
}

/// What is wrong after `=`.
fn hint_after_equals(place: usize, tokens: &[Token<'_>]) -> Option<Hint>
    ensures { result ≡ hint_after_equals place tokens.now }
{
    match wanting(Wanted::Call, place, tokens) {
        Ok((_call, arguments)) => wanting_each(Wanted::Argument, arguments),
        Err(hint) => Some(hint),
    }
}

/// What is wrong after a first name.
fn hint_after_first(first: &[u8], place: usize, tokens: &[Token<'_>]) -> Option<Hint>
    ensures { result ≡ hint_after_first first.now place tokens.now }
{
    match wanting(Wanted::EqualsOrName, place, tokens) {
        Ok((second, others)) => {
            if is_equals(second.bytes()) {
                hint_after_equals(second.behind(), others)
            } else if first == second.bytes() {
                Some(hint_at(second, Wanted::OtherName))
            } else {
                hint_after_names(second.behind(), others)
            }
        }
        Err(hint) => Some(hint),
    }
}

/// What is wrong after two names.
fn hint_after_names(place: usize, tokens: &[Token<'_>]) -> Option<Hint>
    ensures { result ≡ hint_after_names place tokens.now }
{
    match wanting(Wanted::Equals, place, tokens) {
        Ok((equals, others)) => hint_after_equals(equals.behind(), others),
        Err(hint) => Some(hint),
    }
}

/// Whether the first token is `=`.
fn begins_with_equals(tokens: &[Token<'_>]) -> bool
    ensures { result ≡ begins_with_equals tokens.now }
{
    match tokens.first() {
        Some(token) => is_equals(token.bytes()),
        None => false,
    }
}

/// Whether a line with this first token begins as `write NAME ..` does.
pub(crate) fn is_write_line(first: &[u8], others: &[Token<'_>]) -> bool
    ensures { result ≡ is_write_line first.now others.now }
{
    first == b"write".as_slice() && !begins_with_equals(others)
}

/// Where a line breaks the form of a line, if it does.
pub(crate) fn hint_of(tokens: &[Token<'_>]) -> Option<Hint>
    ensures { result ≡ hint_of tokens.now }
{
    let (first, others) = tokens.split_first()?;
    if is_write_line(first.bytes(), others) {
        wanting_each(Wanted::Name, others)
    } else if is_name_text(first.bytes()) {
        hint_after_first(first.bytes(), first.behind(), others)
    } else {
        Some(hint_at(first, Wanted::Name))
    }
}
