//! The parts of a line: the names before `=`, the call, and its arguments.

ghost use Rattle.std.specs.Prelude.{◌≡◌};
ghost use Rattle.explained_calls.specs.LineFaults.{binding_parts, call_parts, parts_of};

use crate::misplaced::{is_equals, is_write_line};
use crate::placed_tokens::Token;
use std::marker::Model;

/// The parts of a line that has the form of a line.
#[derive(Drop)]
pub(crate) struct LineParts<'t, 'l> {
    /// How many names stand before `=`.
    pub(crate) names: usize,
    /// The name of the call, or `write`.
    pub(crate) call: &'l [u8],
    /// Its arguments.
    pub(crate) arguments: &'t [Token<'l>],
}

impl<'t, 'l> Model for LineParts<'t, 'l> {
    ghost use Rattle.explained_calls.specs.LineFaults.{Parts};

    ghost Value = { Parts };

    ghost view = { λ p. record { names = p.names; call = p.call.now; arguments = p.arguments.now } };
}

/// The parts of a line whose call and arguments are these tokens, behind so many names.
fn call_parts<'t, 'l>(names: usize, tokens: &'t [Token<'l>]) -> LineParts<'t, 'l>
    ensures { result ≡ call_parts names tokens.now }
{
    match tokens.split_first() {
        None => LineParts {
            names,
            call: b"",
            arguments: tokens,
        },
        Some((call, arguments)) => LineParts {
            names,
            call: call.bytes(),
            arguments,
        },
    }
}

/// The parts of a line that binds names.
fn binding_parts<'t, 'l>(tokens: &'t [Token<'l>]) -> LineParts<'t, 'l>
    ensures { result ≡ binding_parts tokens.now }
{
    for (names, token) in tokens.iter().enumerate() {
        if is_equals(token.bytes()) {
            return call_parts(names, &tokens[names + 1..]);
        }
    }
    call_parts(tokens.len(), &tokens[tokens.len()..])
}

/// The parts of a line.
pub(crate) fn parts_of<'t, 'l>(tokens: &'t [Token<'l>]) -> LineParts<'t, 'l>
    ensures { result ≡ parts_of tokens.now }
{
    match tokens.split_first() {
        None => call_parts(0, tokens),
        Some((first, others)) => {
            if is_write_line(first.bytes(), others) {
                call_parts(0, tokens)
            } else {
                binding_parts(tokens)
            }
        }
    }
}
