//! Reads a nested text, list by list, on the calling thread.

ghost use Rattle.std.specs.Prelude.{◌≡◌, ◌+◌, ◌-◌, ◌*◌, pos, ◌<◌, ◌≤◌, ◌^◌, ◌∷◌, length, true, false, IfOk, IfErr, MatchResult};
ghost use Rattle.std.specs.Prelude.{vec_len, vec_capacity};
ghost use Rattle.cvl_base.specs.Gives.{Gives};
ghost use Rattle.cvl_base.specs.Limits.{most_elements};
ghost use Rattle.call_reader.specs.NestedTexts.{marks_of, opening, before, between, is_opening, nested_of};
ghost use Rattle.call_reader.specs.NestedReads.{is_number, begin_with};
ghost use Rattle.call_reader.specs.NestedReads.{ArePushed, AreListsRead, IsNestRead, IsFaultAt};

use crate::nested_tokens::{
    after_closing, after_number, after_opening, has_no_token, has_too_many,
};
use cvl_base::limits::MOST_ELEMENTS;
use cvl_base::{Fault, FaultNo, Memory, NoResources, Refused};
use std::alloc::Allocator;

/// The inner lists with which bytes begin.
#[derive(Drop)]
pub(crate) struct ReadLists<'a, A: Allocator> {
    /// The numbers of all lists, one list after another.
    pub(crate) numbers: Vec<i32, A>,
    /// How many numbers each list has.
    pub(crate) lengths: Vec<i32, A>,
    /// The bytes after the lists.
    pub(crate) rest: &'a [u8],
    ghost few_numbers: { vec_len numbers ≤ most_elements },
    ghost few_lists: { vec_len lengths ≤ most_elements },
}

/// Pushes the integers with which the bytes begin, as many as there is room for, and returns what stands after them.
fn push_numbers<'a, A: Allocator>(bytes: &'a [u8], numbers: &mut Vec<i32, A>) -> &'a [u8]
    requires within { vec_len numbers.old ≤ vec_capacity numbers.old }
    ensures pushed { ArePushed bytes.now result.now numbers.old.items numbers.new.items }
    ensures full { begin_with is_number (marks_of result.now) ≡ true → vec_capacity numbers.old ≤ vec_len numbers.new }
    ensures within { vec_len numbers.new ≤ vec_capacity numbers.old }
    ensures capacity { vec_capacity numbers.new ≡ vec_capacity numbers.old }
    ensures no_longer { length result.now ≤ length bytes.now }
{
    let mut rest = bytes;
    while let Some((number, others)) = after_number(rest) {
        if numbers.len() == numbers.capacity() {
            return rest;
        }
        numbers.push_reserved(number);
        rest = others;
    }
    rest
}

/// How many elements stand from one place up to another.
fn count_between(start: usize, end: usize) -> i32
    requires { (start ≤ end) × (end ≤ most_elements) }
    ensures { result ≡ pos (end - start) }
{
    (end - start) as i32
}

/// Reads the inner lists of a nested text; the bytes are what stands after its first `[`. Or returns the place in the text of the
/// first token that can't stand there.
pub(crate) fn read_lists<A: Memory>(
    alloc: A,
    bytes: &[u8],
) -> Result<Result<ReadLists<'_, A>, usize>, NoResources>
    ensures read { IfOk result (λ r. MatchResult r
        (λ l. AreListsRead bytes.now l.rest.now l.numbers.items l.lengths.items)
        (λ place. IsFaultAt place between 1 (marks_of bytes.now) (opening ∷ marks_of bytes.now))) }
    ensures all { IfOk result (λ r. IfOk r (λ l. begin_with is_opening (marks_of l.rest.now) ≡ false)) }
    ensures place { IfOk result (λ r. IfErr r (λ place. place ≤ 3 * most_elements + 2)) }
{
    // each token has a byte
    let room = bytes.len().min(MOST_ELEMENTS);
    let mut numbers = Vec::with_capacity(alloc, room)?;
    let mut lengths = Vec::with_capacity(alloc, room)?;
    let mut rest = bytes;
    while let Some(inner) = after_opening(rest) {
        if lengths.len() == lengths.capacity() {
            return Ok(Err(1 + numbers.len() + 2 * lengths.len()));
        }
        let start = numbers.len();
        let others = push_numbers(inner, &mut numbers);
        let Some(behind) = after_closing(others) else {
            return Ok(Err(2 + numbers.len() + 2 * lengths.len()));
        };
        lengths.push_reserved(count_between(start, numbers.len()));
        rest = behind;
    }
    Ok(Ok(ReadLists {
        numbers,
        lengths,
        rest,
    }))
}

/// The fault of a text with a token at this place that can't stand there, or that ends there too early: `TooLong` if it has too
/// many tokens, else `BadInput` at the place.
fn fault_there(bytes: &[u8], place: usize) -> Fault
    requires small { place < 2 ^ 32 }
    requires fault { IsFaultAt place before 0 (marks_of bytes.now) (marks_of bytes.now) }
    ensures { nested_of bytes.now ≡ Err result }
{
    if has_too_many(bytes) {
        Fault::new(FaultNo::TooLong)
    } else {
        Fault::at(FaultNo::BadInput, place as u32)
    }
}

/// The numbers of all inner lists and how many each list has, as the calling thread reads them.
#[tactic(auto, using(crate::proofs::NestedMarks::nest_fault, crate::proofs::NestedMarks::behind_fault))]
pub(crate) fn nest_alone<A: Memory>(
    alloc: A,
    bytes: &[u8],
) -> Result<(Vec<i32, A>, Vec<i32, A>), Refused>
    ensures read { MatchResult result
        (λ p. IsNestRead bytes.now p.0.items p.1.items)
        (λ refused. Gives (λ p. p) (Err refused) (nested_of bytes.now)) }
    ensures few { IfOk result (λ p. (vec_len p.0 ≤ most_elements) × (vec_len p.1 ≤ most_elements)) }
{
    let Some(inner) = after_opening(bytes) else {
        return Err(Refused::Fault(fault_there(bytes, 0)));
    };
    let lists = match read_lists(alloc, inner)? {
        Ok(lists) => lists,
        Err(place) => return Err(Refused::Fault(fault_there(bytes, place))),
    };
    let end = 1 + lists.numbers.len() + 2 * lists.lengths.len();
    let Some(behind) = after_closing(lists.rest) else {
        return Err(Refused::Fault(fault_there(bytes, end)));
    };
    if !has_no_token(behind) {
        return Err(Refused::Fault(fault_there(bytes, end + 1)));
    }
    Ok((lists.numbers, lists.lengths))
}
