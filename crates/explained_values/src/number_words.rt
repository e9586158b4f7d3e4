//! A number among the arguments that is a call's fault, and why the call has no value for it.

ghost use Rattle.std.specs.Prelude.{◌≡◌, ◌++◌, OnOk};
ghost use Rattle.explained_values.specs.Arguments.{line_of};
ghost use Rattle.explained_values.specs.NumberWords.{length_argument, meaning_of};
ghost use Rattle.explained_values.specs.NumberWords.{number_argument, number_name};
ghost use Rattle.explained_values.specs.NumberWords.{reason_words};
ghost use Rattle.explained_values.specs.ValueFaults.{number_fault_words};

use crate::arguments::{Argument, spelled_at};
use crate::index_words::{put_places, put_repeated};
use crate::sentences::Element;
use cvl_base::name::is_word_text;
use cvl_base::{FaultNo, Kind, Memory, NoResources, Op};
use explained_calls::{Counted, Number, Words, said};

/// Which argument gives the length of the result.
fn length_argument(op: Op) -> Option<usize>
    ensures { result ≡ length_argument op }
{
    match op {
        Op::Distribute(_, _) => Some(1),
        Op::Index(_) => Some(2),
        Op::MakeDescriptor => Some(0),
        _ => None,
    }
}

/// Which argument holds the number at fault, if a number is at fault.
fn number_argument(number: FaultNo, op: Op) -> Option<usize>
    ensures { result ≡ number_argument number op }
{
    match number {
        FaultNo::DivideByZero
        | FaultNo::ShiftOutOfRange
        | FaultNo::IndexOutOfRange
        | FaultNo::IndexRepeated => Some(1),
        FaultNo::NegativeLength | FaultNo::TooLong => length_argument(op),
        FaultNo::NoSuchInput => Some(0),
        _ => None,
    }
}

/// What a single number of a line means to the call.
fn meaning_of(number: FaultNo) -> &'static [u8]
    ensures { result.now ≡ meaning_of number }
{
    match number {
        FaultNo::IndexOutOfRange => b"the index",
        FaultNo::NoSuchInput => b"the input's number",
        _ => b"the length",
    }
}

/// Writes the name of an element or of a single number, or what a number of the line means to the call.
fn put_number_name<A: Memory, B: Memory>(
    number: FaultNo,
    argument: &Argument<'_, A>,
    place: usize,
    text: &mut Vec<u8, B>,
) -> Result<(), NoResources>
    ensures { OnOk result (text.new.items ≡ text.old.items ++ number_name number argument.now place) }
{
    let word = argument.word();
    if let Some(Kind::Integers) = argument.kind() {
        Element(word, place).put(text)
    } else if is_word_text(word) {
        word.put(text)
    } else {
        meaning_of(number).put(text)
    }
}

/// Writes why a call has no value for a number.
fn put_reason<A: Memory, B: Memory>(
    inputs: usize,
    op: Op,
    arguments: &[Argument<'_, A>],
    number: FaultNo,
    place: usize,
    text: &mut Vec<u8, B>,
) -> Result<(), NoResources>
    ensures { OnOk result (text.new.items ≡ text.old.items ++ reason_words inputs op arguments.now number place) }
{
    match number {
        FaultNo::DivideByZero => {
            let divided = Element(spelled_at(arguments, 0).word(), place);
            said![b", and ", divided, b" cannot be divided by it"].put(text)
        }
        FaultNo::ShiftOutOfRange => b", and a shift is from 0 to 31".put(text),
        FaultNo::IndexOutOfRange => {
            b", and ".put(text)?;
            put_places(op, arguments, place, text)
        }
        FaultNo::IndexRepeated => put_repeated(op, arguments, place, text),
        FaultNo::NegativeLength => b", and a length is 0 or more".put(text),
        FaultNo::TooLong => b", and a vector has at most 4194304 elements".put(text),
        FaultNo::NoSuchInput => {
            let inputs = Counted(inputs, b"input");
            said![b", and the run has ", inputs, b"; inputs count from 1"].put(text)
        }
        _ => Ok(()),
    }
}

/// Writes the line about a number that is a call's fault: `index[3] is 12, and v has 8 elements`.
pub(crate) fn put_number_fault<A: Memory, B: Memory>(
    inputs: usize,
    op: Op,
    arguments: &[Argument<'_, A>],
    number: FaultNo,
    place: usize,
    text: &mut Vec<u8, B>,
) -> Result<(), NoResources>
    ensures { OnOk result (text.new.items
        ≡ text.old.items ++ line_of (number_fault_words inputs op arguments.now number place)) }
{
    let Some(at) = number_argument(number, op) else {
        return Ok(());
    };
    let argument = spelled_at(arguments, at);
    let Some(culprit) = argument.integer_at(place) else {
        return Ok(());
    };
    b"  ".put(text)?;
    put_number_name(number, &argument, place, text)?;
    said![b" is ", Number(culprit)].put(text)?;
    put_reason(inputs, op, arguments, number, place, text)?;
    b"\n".put(text)
}
