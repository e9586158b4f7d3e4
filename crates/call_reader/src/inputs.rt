//! Inputs.

ghost use Rattle.std.specs.Prelude.{◌≡◌, ◌<◌, ◌≤◌, ◌+◌, [], ◌∷◌, length, drop, codes, Ok, Err, pos, neg_ℤ, nat_lt, if◌then◌else◌};
ghost use Rattle.std.specs.Prelude.{MatchOption, IfSome, IfOk, vec_len};
ghost use Rattle.cvl_base.specs.declared.fault.FaultNo.TheVariants.{TooLong, BadInput};
ghost use Rattle.cvl_base.specs.Faults.{fault, fault_at};
ghost use Rattle.cvl_base.specs.Gives.{Gives};
ghost use Rattle.cvl_base.specs.Limits.{most_elements, most_places};
ghost use Rattle.line_reader.specs.Tokens.{tokens_by, IsFirstToken};
ghost use Rattle.line_reader.specs.Numbers.{written_number};
ghost use Rattle.call_reader.specs.Inputs.{is_white_space, input_class, input_of, input_within};
ghost use Rattle.call_reader.specs.Pieces.{goes_on};
ghost use Rattle.std.specs.Int.{from_bool};

use cvl_base::limits::MOST_ELEMENTS;
use cvl_base::{Fault, FaultNo, Memory, Refused};
use line_reader::number::{leading_number, number};
use line_reader::token::{ByteClass, Classes, begins_in_token, blanks, first_token};

/// Whether a byte is white space: a space, a tab, a line feed or a carriage return.
#[inline(always)]
pub(crate) fn is_white_space(byte: u8) -> bool
    ensures { result ≡ is_white_space byte }
{
    // no branch, so that many bytes can be tested together
    (byte == b' ') | (byte == b'\t') | (byte == b'\n') | (byte == b'\r')
}

/// The classes of the bytes of an input of numbers: white space is blank.
pub enum InputBytes {}

impl Classes for InputBytes {
    ghost class_of = { input_class };

    #[inline(always)]
    fn class_of(byte: u8) -> ByteClass {
        if is_white_space(byte) {
            ByteClass::Blank
        } else {
            ByteClass::InToken
        }
    }
}

/// How many bytes are tested before the tokens that begin in them are added to the others: so few that a byte can count them, and
/// sixteen such counts are added up at once.
const PAGE_BYTES: usize = 192;

/// How many tokens begin in the `first` bytes, and whether the last of these is white space. `after_white_space` says whether
/// white space stands before them.
#[inline(always)]
fn tokens_begun(bytes: &[u8], first: usize, after_white_space: bool) -> (u8, bool)
    requires within { first ≤ length bytes.now }
    requires few { first ≤ PAGE_BYTES }
    ensures few { result.0 ≤ first }
    ensures tokens { result.0 + length (tokens_by input_class (drop first bytes.now)) + from_bool
        (goes_on after_white_space bytes.now)
        ≡ length (tokens_by input_class bytes.now) + from_bool (goes_on result.1 (drop first bytes.now)) }
{
    let mut count: u8 = 0;
    let mut is_after = after_white_space;
    let (page, _others) = bytes.split_at(first);
    for byte in page {
        let is_white_space = is_white_space(*byte);
        count += u8::from(is_after & !is_white_space);
        is_after = is_white_space;
    }
    (count, is_after)
}

/// How many tokens an input has.
pub(crate) fn token_count(bytes: &[u8]) -> usize
    ensures { result ≡ length (tokens_by input_class bytes.now) }
{
    let mut count = 0;
    let mut after_white_space = true;
    let mut rest = bytes;
    while rest.len() > PAGE_BYTES {
        let (tokens, is_after) = tokens_begun(rest, PAGE_BYTES, after_white_space);
        count += usize::from(tokens);
        after_white_space = is_after;
        let (_page, others) = rest.split_at(PAGE_BYTES);
        rest = others;
    }
    let (tokens, _is_after) = tokens_begun(rest, rest.len(), after_white_space);
    count + usize::from(tokens)
}

/// The fault of an input whose token at this place, counted from 0, is no number; `rest` are the bytes from that token on:
/// `TooLong` if there are more than `most` tokens in all, else `BadInput` at the place.
fn fault_at_token(most: usize, place: usize, rest: &[u8]) -> Fault
    requires within { (place ≤ most) × (most ≤ most_places) }
    ensures { result ≡ (if nat_lt most (place + length (tokens_by input_class rest.now))
        then fault TooLong else fault_at BadInput place) }
{
    if token_count(rest) > most - place {
        Fault::new(FaultNo::TooLong)
    } else {
        Fault::at(FaultNo::BadInput, place as u32)
    }
}

/// The first token of the bytes, its integer, and what stands after it; none if there is no token.
#[inline(always)]
pub(crate) fn first_number(bytes: &[u8]) -> Option<(&[u8], Option<i32>, &[u8])>
    ensures tokens { MatchOption result (tokens_by input_class bytes.now ≡ [])
        (λ t. IsFirstToken input_class bytes.now t.0.now t.2.now) }
    ensures number { IfSome result (λ t. t.1 ≡ written_number t.0.now) }
    ensures shorter { IfSome result (λ t. length t.2.now < length bytes.now) }
{
    let (_blank, rest) = bytes.split_at(blanks::<InputBytes>(bytes));
    // nearly every token is an integer that one walk finds and reads
    if let Some((value, length)) = leading_number(rest) {
        let (token, others) = rest.split_at(length);
        if !begins_in_token::<InputBytes>(others) {
            return Some((token, Some(value), others));
        }
    }
    let (token, others) = first_token::<InputBytes>(rest)?;
    Some((token, number(token), others))
}

/// Reads an input of at most `most` tokens on the calling thread, for code that has no runtime. The answers are those of
/// [`read_vector`](crate::read_vector), but `TooLong` comes if there are more tokens than `most`.
pub fn read_vector_within<A: Memory>(
    alloc: A,
    most: usize,
    bytes: &[u8],
) -> Result<Vec<i32, A>, Refused>
    requires { most ≤ most_places }
    ensures values { Gives (λ v. v.items) result (input_within most bytes.now) }
    ensures in_limit { IfOk result (λ v. vec_len v ≤ most) }
{
    // each token but the last has white space after it
    let room = bytes.len().div_ceil(2).min(most);
    let mut numbers = Vec::with_capacity(alloc, room)?;
    let mut rest = bytes;
    while let Some((_token, number, others)) = first_number(rest) {
        if numbers.len() == most {
            return Err(Refused::Fault(Fault::new(FaultNo::TooLong)));
        }
        match number {
            None => return Err(Refused::Fault(fault_at_token(most, numbers.len(), rest))),
            Some(number) => numbers.push_reserved(number),
        }
        rest = others;
    }
    Ok(numbers)
}

/// Reads an input on the calling thread, for code that has no runtime. The answers are those of
/// [`read_vector`](crate::read_vector).
pub fn read_vector_alone<A: Memory>(alloc: A, bytes: &[u8]) -> Result<Vec<i32, A>, Refused>
    ensures values { Gives (λ v. v.items) result (input_of bytes.now) }
    ensures in_limit { IfOk result (λ v. vec_len v ≤ most_elements) }
{
    read_vector_within(alloc, MOST_ELEMENTS, bytes)
}

/// Worked inputs. It does nothing: its contract is what the definition says of them.
pub fn worked_inputs()
    ensures plus_sign { input_of (codes "1 +2 3") ≡ Err (fault_at BadInput 1) }
    ensures above_range { input_of (codes "2147483648") ≡ Err (fault_at BadInput 0) }
    ensures below_range { input_of (codes "-2147483649") ≡ Err (fault_at BadInput 0) }
    ensures least { input_of (codes "-2147483648") ≡ Ok (neg_ℤ (pos 2147483648) ∷ []) }
    ensures greatest { input_of (codes "2147483647") ≡ Ok (pos 2147483647 ∷ []) }
    ensures empty { input_of [] ≡ Ok [] }
    ensures white_space { input_of (codes " \t\r\n") ≡ Ok [] }
    ensures leading_zeros { input_of (codes "007 -0") ≡ Ok (pos 7 ∷ pos 0 ∷ []) }
    ensures sign_alone { input_of (codes "4 - 5") ≡ Err (fault_at BadInput 1) }
    ensures zero_byte { input_of (49 ∷ 32 ∷ 0 ∷ []) ≡ Err (fault_at BadInput 1) }
{}
