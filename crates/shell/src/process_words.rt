//! The words of a process's command line, and their texts.

ghost use Rattle.std.specs.Prelude.{◌≡◌, IfOk, map, true};
ghost use Rattle.std.specs.List.{list_all};
ghost use Rattle.std.specs.Str.{is_utf8};
ghost use Rattle.clap.specs.Walk.{texts};

use std::alloc::{AllocError, Global};
use std::env::FillError;
use std::rt::Env;
use std::str;

/// The room for a word, in bytes, when it is first asked for.
const FIRST_ROOM: usize = 256;

/// The word at this place of the command line, counted from 0; none after the last. Doubles its room until the word fits.
fn process_word<R: Env + AllocGlobal>(rt: &R, place: usize) -> Result<Option<Vec<u8>>, AllocError> {
    let mut room = FIRST_ROOM;
    for _ in 0..usize::BITS {
        let mut word = vec![in rt.alloc(); 0u8; room]?;
        match rt.arg(place, word.as_mut_slice()) {
            Ok(bytes) => {
                word.truncate(bytes);
                return Ok(Some(word));
            }
            Err(FillError::NotPresent) => return Ok(None),
            Err(FillError::TooLong) => room = room.saturating_mul(2),
        }
    }
    Err(AllocError)
}

/// The words of the command line, the program's own name first.
// `env::args` gives no words at all if one of them is not UTF-8.
pub(crate) fn process_words<R: Env + AllocGlobal>(rt: &R) -> Result<Vec<Vec<u8>>, AllocError> {
    let mut words = Vec::new(rt.alloc());
    for place in 0..usize::MAX {
        match process_word(rt, place)? {
            Some(word) => words.push(word)?,
            None => break,
        }
    }
    Ok(words)
}

/// Whether a word is UTF-8.
fn is_text(word: &[u8]) -> bool
    ensures { result ≡ is_utf8 word.now }
{
    str::from_utf8(word).is_ok()
}

/// Whether all words are UTF-8.
pub(crate) fn are_texts(words: &[Vec<u8>]) -> bool
    ensures { result ≡ list_all is_utf8 (map (λ word. word.items) words.now) }
{
    for word in words {
        if !is_text(word.as_slice()) {
            return false;
        }
    }
    true
}

/// A word that is UTF-8, as text.
fn text(word: &[u8]) -> &str
    requires { is_utf8 word.now ≡ true }
    ensures { result.now ≡ word.now }
{
    str::from_utf8(word).unwrap()
}

/// The words, all UTF-8, as the program takes them.
pub(crate) fn borrowed(alloc: Global, words: &[Vec<u8>]) -> Result<Vec<&str>, AllocError>
    requires { list_all is_utf8 (map (λ word. word.items) words.now) ≡ true }
    ensures { IfOk result (λ borrowed. texts borrowed.items ≡ map (λ word. word.items) words.now) }
{
    let mut borrowed = Vec::with_capacity(alloc, words.len())?;
    for word in words {
        borrowed.push(text(word.as_slice()))?;
    }
    Ok(borrowed)
}
