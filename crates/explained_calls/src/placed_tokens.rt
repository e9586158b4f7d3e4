//! Tokens with their places.

ghost use Rattle.std.specs.Prelude.{◌≡◌, ◌+◌, ◌<◌, ◌≤◌, [], ◌∷◌, drop, false, length, slice_get};
ghost use Rattle.std.specs.Prelude.{IfOk, IfSome, MatchOption};
ghost use Rattle.line_reader.specs.Lines.{line_class};
ghost use Rattle.line_reader.specs.Tokens.{begins_with_blank};
ghost use Rattle.explained_calls.specs.PlacedTokens.{behind, placed_by};

use cvl_base::{Memory, NoResources};
use line_reader::line_tokens::LineClasses;
use line_reader::token::{ByteClass, Classes, run_length};
use std::marker::Model;

/// A token and its place.
#[derive(Drop)]
pub struct Token<'b> {
    start: usize,
    bytes: &'b [u8],
}

impl<'b> Model for Token<'b> {
    ghost use Rattle.std.specs.Prelude.{◌+◌, ◌<◌, ◌^◌, length};
    ghost use Rattle.explained_calls.specs.PlacedTokens.{Placed, placed};

    ghost Value = { Placed };

    ghost view = { λ t. placed t.start t.bytes.now };

    ghost invariant = { λ t. t.start + length t.bytes.now < 2 ^ 64 };
}

impl<'b> Token<'b> {
    /// The place of its first byte, counted from 0.
    pub fn start(&self) -> usize
        ensures { result ≡ self.now.start }
    {
        self.start
    }

    /// Its bytes.
    pub fn bytes(&self) -> &'b [u8]
        ensures { result.now ≡ self.now.bytes }
    {
        self.bytes
    }

    /// The place right behind it.
    pub(crate) fn behind(&self) -> usize
        ensures { result ≡ behind self.now }
    {
        self.start + self.bytes.len()
    }
}

/// The place of the first byte from here on that is no blank, or the place after all bytes.
fn after_blanks<C: Classes>(bytes: &[u8], from: usize) -> usize
    requires { from ≤ length bytes.now }
    ensures before { from ≤ result }
    ensures within { result ≤ length bytes.now }
    ensures tokens { placed_by C.class_of from (drop from bytes.now) ≡ placed_by C.class_of result (drop result bytes.now) }
    ensures longest { begins_with_blank C.class_of (drop result bytes.now) ≡ false }
{
    for place in from..bytes.len() {
        if C::class_of(bytes[place]) != ByteClass::Blank {
            return place;
        }
    }
    bytes.len()
}

/// The first token from a place on, and the place right behind it; none if no token is left.
fn next_token<C: Classes>(bytes: &[u8], from: usize) -> Option<(Token<'_>, usize)>
    requires { from ≤ length bytes.now }
    ensures tokens { MatchOption result (placed_by C.class_of from (drop from bytes.now) ≡ [])
        (λ t. placed_by C.class_of from (drop from bytes.now) ≡ t.0 ∷ placed_by C.class_of t.1 (drop t.1 bytes.now)) }
    ensures within { IfSome result (λ t. (from < t.1) × (t.1 ≤ length bytes.now)) }
{
    let start = after_blanks::<C>(bytes, from);
    let (_before, rest) = bytes.split_at(start);
    let (first, _others) = rest.split_first()?;
    let length = match C::class_of(*first) {
        ByteClass::InToken => run_length::<C>(rest),
        ByteClass::Alone | ByteClass::Blank => 1,
    };
    let (token, _behind) = rest.split_at(length);
    Some((
        Token {
            start,
            bytes: token,
        },
        start + length,
    ))
}

/// The tokens of a line without its comment.
pub(crate) fn line_tokens<A: Memory>(
    alloc: A,
    line: &[u8],
) -> Result<Vec<Token<'_>, A>, NoResources>
    ensures { IfOk result (λ tokens. tokens.items ≡ placed_by line_class 0 line.now) }
{
    let mut tokens = Vec::new(alloc);
    let mut place = 0;
    while let Some((token, behind)) = next_token::<LineClasses>(line, place) {
        tokens.push(token)?;
        place = behind;
    }
    Ok(tokens)
}

/// The token with this number, counted from 0; none if there are fewer.
pub fn token_at<C: Classes>(bytes: &[u8], number: usize) -> Option<Token<'_>>
    ensures { result ≡ slice_get (placed_by C.class_of 0 bytes.now) number }
{
    let mut left = number;
    let mut place = 0;
    while let Some((token, behind)) = next_token::<C>(bytes, place) {
        if left == 0 {
            return Some(token);
        }
        left -= 1;
        place = behind;
    }
    None
}
