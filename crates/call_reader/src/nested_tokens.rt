//! The tokens of a nested text.

ghost use Rattle.std.specs.Prelude.{◌≡◌, ◌<◌, ◌∷◌, length, false, MatchOption, IfSome, count_by};
ghost use Rattle.call_reader.specs.NestedTexts.{nested_class, mark_of, marks_of, number, opening, closing, is_opening};
ghost use Rattle.call_reader.specs.NestedTexts.{is_no_bracket, are_too_many};
ghost use Rattle.call_reader.specs.NestedReads.{is_closing, is_number, is_no_mark, begin_with};

use crate::inputs::is_white_space;
use cvl_base::limits::MOST_ELEMENTS;
use line_reader::number::{leading_number, number};
use line_reader::token::{ByteClass, Classes, begins_in_token, blanks, first_token};

/// The classes of a nested text's bytes: white space is blank, and brackets are tokens of their own.
pub enum NestedBytes {}

impl Classes for NestedBytes {
    ghost class_of = { nested_class };

    #[inline(always)]
    fn class_of(byte: u8) -> ByteClass {
        if is_white_space(byte) {
            ByteClass::Blank
        } else if byte == b'[' || byte == b']' {
            ByteClass::Alone
        } else {
            ByteClass::InToken
        }
    }
}

/// Whether a token is `[`.
#[tactic(auto, using(crate::proofs::NestedTokens::opens))]
fn is_opening(token: &[u8]) -> bool
    ensures { result ≡ is_opening (mark_of token.now) }
{
    token == b"[".as_slice()
}

/// Whether a token is no bracket.
#[tactic(auto, using(crate::proofs::NestedTokens::no_bracket))]
fn is_no_bracket(token: &[u8]) -> bool
    ensures { result ≡ is_no_bracket (mark_of token.now) }
{
    !(token == b"[".as_slice() || token == b"]".as_slice())
}

/// What stands after the `[` with which the bytes begin; none if they don't.
pub(crate) fn after_opening(bytes: &[u8]) -> Option<&[u8]>
    ensures marks { MatchOption result (begin_with is_opening (marks_of bytes.now) ≡ false)
        (λ rest. marks_of bytes.now ≡ opening ∷ marks_of rest.now) }
    ensures shorter { IfSome result (λ rest. length rest.now < length bytes.now) }
{
    let (token, others) = first_token::<NestedBytes>(bytes)?;
    if !is_opening(token) {
        return None;
    }
    Some(others)
}

/// What stands after the `]` with which the bytes begin; none if they don't.
#[tactic(auto, using(crate::proofs::NestedTokens::closes))]
pub(crate) fn after_closing(bytes: &[u8]) -> Option<&[u8]>
    ensures marks { MatchOption result (begin_with is_closing (marks_of bytes.now) ≡ false)
        (λ rest. marks_of bytes.now ≡ closing ∷ marks_of rest.now) }
    ensures shorter { IfSome result (λ rest. length rest.now < length bytes.now) }
{
    let (token, others) = first_token::<NestedBytes>(bytes)?;
    if token != b"]".as_slice() {
        return None;
    }
    Some(others)
}

/// Whether there is no token.
pub(crate) fn has_no_token(bytes: &[u8]) -> bool
    ensures { result ≡ is_no_mark (marks_of bytes.now) }
{
    first_token::<NestedBytes>(bytes).is_none()
}

/// The integer with which the bytes begin, and what stands after it; none if the first token is no integer of 32 bits.
#[inline(always)]
pub(crate) fn after_number(bytes: &[u8]) -> Option<(i32, &[u8])>
    ensures marks { MatchOption result (begin_with is_number (marks_of bytes.now) ≡ false)
        (λ n. marks_of bytes.now ≡ number n.0 ∷ marks_of n.1.now) }
    ensures shorter { IfSome result (λ n. length n.1.now < length bytes.now) }
{
    let (_blank, rest) = bytes.split_at(blanks::<NestedBytes>(bytes));
    // nearly every number is one that one walk finds and reads
    if let Some((value, length)) = leading_number(rest) {
        let (_token, others) = rest.split_at(length);
        if !begins_in_token::<NestedBytes>(others) {
            return Some((value, others));
        }
    }
    let (token, others) = first_token::<NestedBytes>(rest)?;
    let value = number(token)?;
    Some((value, others))
}

/// How many tokens there are other than brackets, and how many `[`.
fn counts(bytes: &[u8]) -> (usize, usize)
    ensures others { result.0 ≡ count_by is_no_bracket (marks_of bytes.now) }
    ensures openings { result.1 ≡ count_by is_opening (marks_of bytes.now) }
{
    let mut others = 0;
    let mut openings = 0;
    let mut rest = bytes;
    while let Some((token, behind)) = first_token::<NestedBytes>(rest) {
        others += usize::from(is_no_bracket(token));
        openings += usize::from(is_opening(token));
        rest = behind;
    }
    (others, openings)
}

/// Whether there are more tokens other than brackets than a vector may have elements, or more `[` than one for the outer
/// list and one for each of as many inner lists as a descriptor may have segments.
pub(crate) fn has_too_many(bytes: &[u8]) -> bool
    ensures { result ≡ are_too_many (marks_of bytes.now) }
{
    let (others, openings) = counts(bytes);
    others > MOST_ELEMENTS || openings > MOST_ELEMENTS + 1
}
