//! Bytes that a user wrote, as an explanation shows them.
//!
//! Characters of UTF-8 stand as they are. A byte below 32, the byte 127, and one that belongs to no character stand as `\xNN`, so
//! that no terminal takes them for a command.

ghost use Rattle.std.specs.Prelude.{◌≡◌, ◌<◌, [], ◌∷◌, drop, false, length, map, take};
ghost use Rattle.std.specs.Prelude.{IfSome, MatchOption};
ghost use Rattle.std.specs.Fmt.{digit_glyph};
ghost use Rattle.std.specs.List.{concat};
ghost use Rattle.std.specs.Str.{is_utf8};
ghost use Rattle.explained_calls.specs.Sentences.{shortened};
ghost use Rattle.explained_calls.specs.Shown.{character_length, characters, fitting, is_printed};
ghost use Rattle.explained_calls.specs.Shown.{shown, shown_byte, shown_character, shown_front};

use crate::said;
use crate::words::Words;
use cvl_base::{Memory, NoResources};

/// The first bytes, so many if there are as many.
pub fn first_bytes(bytes: &[u8], count: usize) -> &[u8]
    ensures { result.now ≡ take count bytes.now }
{
    if count < bytes.len() {
        &bytes[..count]
    } else {
        bytes
    }
}

/// The bytes behind so many; none if there are no more.
fn bytes_behind(bytes: &[u8], count: usize) -> &[u8]
    ensures { result.now ≡ drop count bytes.now }
{
    if count < bytes.len() {
        &bytes[count..]
    } else {
        &[]
    }
}

/// Whether bytes are UTF-8.
fn is_text(bytes: &[u8]) -> bool
    ensures { result ≡ is_utf8 bytes.now }
{
    str::from_utf8(bytes).is_ok()
}

/// Whether the first bytes, so many, are UTF-8.
fn begins_with_text(bytes: &[u8], count: usize) -> bool
    ensures { result ≡ is_utf8 (take count bytes.now) }
{
    is_text(first_bytes(bytes, count))
}

/// How many bytes the character has with which the bytes begin; 1 if they begin with none.
fn character_length(bytes: &[u8]) -> usize
    ensures { result ≡ character_length bytes.now }
{
    if begins_with_text(bytes, 1) {
        1
    } else if begins_with_text(bytes, 2) {
        2
    } else if begins_with_text(bytes, 3) {
        3
    } else if begins_with_text(bytes, 4) {
        4
    } else {
        1
    }
}

/// The first character, or a byte that belongs to none, and what stands behind it; none if no byte is left.
#[tactic(auto, using(crate::proofs::ShownWalk::first_and_others, crate::proofs::ShownWalk::others_shorter))]
fn next_character(bytes: &[u8]) -> Option<(&[u8], &[u8])>
    ensures characters { MatchOption result (characters bytes.now ≡ [])
        (λ c. characters bytes.now ≡ c.0.now ∷ characters c.1.now) }
    ensures shorter { IfSome result (λ c. length c.1.now < length bytes.now) }
{
    if bytes.is_empty() {
        return None;
    }
    let length = character_length(bytes);
    Some((first_bytes(bytes, length), bytes_behind(bytes, length)))
}

/// Whether a byte alone is a character that can be seen, or a space.
fn is_printed(byte: u8) -> bool
    ensures { result ≡ is_printed byte }
{
    byte.is_ascii_graphic() || byte == b' '
}

/// A digit of base 16.
fn hex_digit(digit: u8) -> u8
    requires { digit < 16 }
    ensures { result ≡ digit_glyph false digit }
{
    if digit < 10 {
        b'0' + digit
    } else {
        b'a' + (digit - 10)
    }
}

/// A byte alone: a control byte, and one that belongs to no character, by its number, `\x1b`.
#[derive(Clone, Copy)]
struct Byte(u8);

impl Words for Byte {
    ghost words = { λ byte. shown_byte byte.0 };

    fn put<A: Memory>(&self, text: &mut Vec<u8, A>) -> Result<(), NoResources> {
        let byte = self.0;
        if is_printed(byte) {
            (&[byte]).put(text)
        } else {
            let digits = [hex_digit(byte / 16), hex_digit(byte % 16)];
            said![b"\\x", &digits].put(text)
        }
    }
}

/// A character as it stands, unless it is a single byte that is not printed.
#[derive(Clone, Copy)]
struct Character<'a>(&'a [u8]);

impl<'a> Words for Character<'a> {
    ghost words = { λ character. shown_character character.0.now };

    fn put<A: Memory>(&self, text: &mut Vec<u8, A>) -> Result<(), NoResources> {
        match self.0 {
            [byte] => Byte(*byte).put(text),
            _ => self.0.put(text),
        }
    }
}

/// Bytes as an explanation shows them, characters as they are and other bytes as `\xNN`.
#[derive(Clone, Copy)]
pub struct Shown<'a>(pub &'a [u8]);

impl<'a> Words for Shown<'a> {
    ghost words = { λ bytes. shown bytes.0.now };

    #[tactic(auto, using(crate::proofs::ShownWalk::one_more, crate::proofs::ShownWalk::all_shown))]
    fn put<A: Memory>(&self, text: &mut Vec<u8, A>) -> Result<(), NoResources> {
        let mut rest = self.0;
        while let Some((character, others)) = next_character(rest) {
            Character(character).put(text)?;
            rest = others;
        }
        Ok(())
    }
}

/// The first whole characters of bytes that have at most so many bytes.
#[derive(Clone, Copy)]
struct Fitting<'a>(usize, &'a [u8]);

impl<'a> Words for Fitting<'a> {
    ghost words = { λ front. concat (map shown_character (fitting front.0 (characters front.1.now))) };

    #[tactic(auto, using(crate::proofs::ShownWalk::one_more, crate::proofs::ShownWalk::all_shown))]
    fn put<A: Memory>(&self, text: &mut Vec<u8, A>) -> Result<(), NoResources> {
        let (mut left, mut rest) = (self.0, self.1);
        while let Some((character, others)) = next_character(rest) {
            if left < character.len() {
                return Ok(());
            }
            Character(character).put(text)?;
            left -= character.len();
            rest = others;
        }
        Ok(())
    }
}

/// Bytes as an explanation shows them; if there are more than so many, the first whole characters that have no more, and `..`.
#[derive(Clone, Copy)]
pub struct Front<'a>(pub usize, pub &'a [u8]);

impl<'a> Words for Front<'a> {
    ghost words = { λ front. shown_front front.0 front.1.now };

    fn put<A: Memory>(&self, text: &mut Vec<u8, A>) -> Result<(), NoResources> {
        if self.1.len() <= self.0 {
            return Shown(self.1).put(text);
        }
        said![Fitting(self.0, self.1), b".."].put(text)
    }
}

/// A token as an explanation shows it; a long one as its first 40 bytes, or fewer if a character would be cut, and `..`.
#[derive(Clone, Copy)]
pub struct Shortened<'a>(pub &'a [u8]);

impl<'a> Words for Shortened<'a> {
    ghost words = { λ token. shortened token.0.now };

    fn put<A: Memory>(&self, text: &mut Vec<u8, A>) -> Result<(), NoResources> {
        Front(40, self.0).put(text)
    }
}
