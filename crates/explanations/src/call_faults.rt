//! A call that has a fault: what it takes, its arguments, and what is wrong with it.

ghost use Rattle.std.specs.Prelude.{◌≡◌, ◌++◌, IfOk, OnOk, length, map, option_map};
ghost use Rattle.bound_names.specs.Arguments.{arg_value, argument_at, integer_in};
ghost use Rattle.explanations.specs.ArgumentLines.{names_in, spelled, word_of};
ghost use Rattle.explained_values.specs.ValueFaults.{value_fault_words};
ghost use Rattle.explanations.specs.Explained.{explained_call, is_nested, is_of_text, numbers_words, reads_input};
ghost use Rattle.explanations.specs.Explained.{text_fault_words, text_words};

use crate::argument_lines::{holding_of, put_arguments};
use crate::bindings::Binding;
use crate::input_files::file_at;
use cvl_base::{Arg, Call, Fault, FaultNo, Memory, NoResources, Op, Value};
use explained_calls::{CallWords, Line, Shown, Words, said};
use explained_inputs::put_input_fault;
use explained_values::{Argument, Holding, put_value_fault};
use itoa::Buffer;
use std::thread::Threads;
use vector_handles::Session;

/// An argument as a line writes it.
fn word_of<A: Memory>(alloc: A, arg: &Arg) -> Result<Vec<u8, A>, NoResources>
    ensures { IfOk result (λ word. word.items ≡ word_of arg.now) }
{
    let word = match arg {
        Arg::Name(name) => Vec::from_slice(alloc, name.as_bytes())?,
        Arg::Integer(n) => Vec::from_slice(alloc, Buffer::new().format(*n).as_bytes())?,
        Arg::Boolean(true) => Vec::from_slice(alloc, b"T")?,
        Arg::Boolean(false) => Vec::from_slice(alloc, b"F")?,
    };
    Ok(word)
}

/// The arguments of a call as a line writes them.
fn words_of<A: Memory>(alloc: A, args: &[Arg]) -> Result<Vec<Vec<u8, A>, A>, NoResources>
    ensures { IfOk result (λ words. map (λ word. word.items) words.items ≡ map word_of args.now) }
{
    let mut words = Vec::with_capacity(alloc, args.len())?;
    for arg in args {
        words.push(word_of(alloc, arg)?)?;
    }
    Ok(words)
}

/// The arguments of a call with what they hold.
fn spelled<'a, A: Memory>(
    alloc: A,
    session: &'a Session<A>,
    args: &[Arg],
    words: &'a [Vec<u8, A>],
) -> Result<Vec<Argument<'a, A>, A>, NoResources>
    requires { map (λ word. word.items) words.now ≡ map word_of args.now }
    ensures { IfOk result (λ arguments. arguments.items ≡ map (spelled session.now.names) args.now) }
{
    let mut arguments = Vec::with_capacity(alloc, args.len())?;
    for (place, arg) in args.iter().enumerate() {
        let word = words[place].as_slice();
        arguments.push(Argument::new(word, holding_of(session, arg)))?;
    }
    Ok(arguments)
}

/// The names that lines bind, in the order of the bindings.
fn names_bound<A: Memory>(alloc: A, bindings: &[Binding]) -> Result<Vec<&[u8], A>, NoResources>
    ensures { IfOk result (λ names. map (λ name. name.now) names.items ≡ map (λ binding. binding.name) bindings.now) }
{
    let mut names = Vec::with_capacity(alloc, bindings.len())?;
    for binding in bindings {
        names.push(binding.name.as_bytes())?;
    }
    Ok(names)
}

/// Whether a call reads an input.
fn reads_input(op: Op) -> bool
    ensures { result ≡ reads_input op }
{
    matches!(op, Op::Input | Op::Nested)
}

/// Whether a call reads a nested text.
fn is_nested(op: Op) -> bool
    ensures { result ≡ is_nested op }
{
    matches!(op, Op::Nested)
}

/// Whether a fault may be in an input's text.
fn is_of_text(number: FaultNo) -> bool
    ensures { result ≡ is_of_text number }
{
    matches!(number, FaultNo::BadInput | FaultNo::TooLong)
}

/// The number that an argument is.
fn number_of<A: Memory>(session: &Session<A>, arg: &Arg) -> i32
    ensures { result ≡ integer_in (arg_value session.now.names arg.now) }
{
    match holding_of(session, arg) {
        Holding::Integer(n) => n,
        Holding::Value(Value::Integer(n)) => *n,
        _ => 0,
    }
}

/// The number of the input that a call with these arguments reads.
fn number_asked<A: Memory>(session: &Session<A>, args: &[Arg]) -> i32
    ensures { result ≡ integer_in (argument_at session.now.names args.now 0) }
{
    match args.first() {
        Some(arg) => number_of(session, arg),
        None => 0,
    }
}

/// Appends what is wrong with an input that is a list of numbers: a nested text is another one.
fn put_numbers<A: Memory>(
    is_nested: bool,
    file: &[u8],
    text: &mut Vec<u8, A>,
) -> Result<(), NoResources>
    ensures { OnOk result (text.new.items ≡ text.old.items ++ numbers_words is_nested file.now) }
{
    if !is_nested {
        return Ok(());
    }
    let words =
        b" is a list of numbers, which input reads; nested reads a list of lists, as [[1 2] []]";
    Line(said![Shown(file), words]).put(text)
}

/// Appends what is wrong with an input, by its text if that is no list of numbers.
fn put_text_words<A: Memory>(
    op: Op,
    file: Option<&str>,
    input: Option<&[u8]>,
    fault: Fault,
    text: &mut Vec<u8, A>,
) -> Result<(), NoResources>
    ensures { OnOk result (text.new.items ≡ text.old.items
        ++ text_words op (option_map (λ file. file.now) file.entry) (option_map (λ input. input.now) input.entry) fault) }
{
    let Some(file) = file else {
        return Ok(());
    };
    let (is_nested, file) = (is_nested(op), file.as_bytes());
    match input {
        None => put_numbers(is_nested, file, text),
        Some(input) => put_input_fault(is_nested, file, Some(input), fault.place, text),
    }
}

/// Appends what is wrong with the input with this number, counted from 1.
fn put_text_fault<R: Threads + Sync, A: Memory>(
    rt: &R,
    session: &Session<A>,
    files: &[&str],
    op: Op,
    number: i32,
    fault: Fault,
    text: &mut Vec<u8, A>,
) -> Result<(), NoResources>
    ensures { OnOk result (text.new.items ≡ text.old.items
        ++ text_fault_words (names_in files.now) session.now.inputs op number fault) }
{
    let input = session.other_text(rt, number)?;
    put_text_words(op, file_at(files, number), input, fault, text)
}

/// Appends what is wrong with the arguments of a call.
fn put_argument_fault<A: Memory>(
    alloc: A,
    session: &Session<A>,
    files: &[&str],
    bindings: &[Binding],
    call: &Call<A>,
    fault: Fault,
    text: &mut Vec<u8, A>,
) -> Result<(), NoResources>
    ensures { OnOk result (text.new.items ≡ text.old.items ++ value_fault_words
        (map (λ binding. binding.name) bindings.now) (length (names_in files.now)) call.now.op
        (map (spelled session.now.names) call.now.args) fault) }
{
    let args = call.args.as_slice();
    let words = words_of(alloc, args)?;
    let arguments = spelled(alloc, session, args, words.as_slice())?;
    let names = names_bound(alloc, bindings)?;
    put_value_fault(
        alloc,
        names.as_slice(),
        files.len(),
        call.op,
        arguments.as_slice(),
        fault,
        text,
    )
}

/// Appends what a call takes, its arguments, and what is at fault: an input's text, or the arguments.
pub(crate) fn put_call<R: Threads + Sync, A: Memory>(
    rt: &R,
    alloc: A,
    session: &Session<A>,
    files: &[&str],
    bindings: &[Binding],
    call: &Call<A>,
    fault: Fault,
    text: &mut Vec<u8, A>,
) -> Result<(), NoResources>
    ensures { OnOk result (text.new.items ≡ text.old.items
        ++ explained_call session.now.names (names_in files.now) session.now.inputs bindings.now call.now fault) }
{
    Line(CallWords(call.op)).put(text)?;
    put_arguments(session, files, bindings, call.args.as_slice(), text)?;
    if reads_input(call.op) && is_of_text(fault.number) {
        let number = number_asked(session, call.args.as_slice());
        return put_text_fault(rt, session, files, call.op, number, fault, text);
    }
    put_argument_fault(alloc, session, files, bindings, call, fault, text)
}
