//! The names that the lines of a script bind.

ghost use Rattle.std.specs.Prelude.{◌≡◌, ◌++◌, Some, Ok, IfOk, OnOk, option_copied};
ghost use Rattle.line_reader.specs.Lines.{call_of};
ghost use Rattle.explanations.specs.Bindings.{bound_before, bound_by_call, input_asked, last_binding, line_at, literal};

use cvl_base::{Arg, Call, Memory, Name, NoResources, Op, Refused, ResultNames};
use line_reader::read_line;
use script_runs::next_line;

/// A name that a line of a script binds.
#[derive(Clone, Copy)]
pub struct Binding {
    /// The name.
    pub name: Name,
    /// The number of the line, from 1 on.
    pub line: u32,
    /// The number of the input that the line binds it to, if the line says it.
    pub input: Option<i32>,
}

/// A line of a script, and what the lines before it bind.
#[derive(Drop)]
pub struct Stopped<'s, A: Memory> {
    /// The line, without its line feed and a carriage return before that.
    pub line: &'s [u8],
    /// The bindings, in the order of the lines.
    pub bindings: Vec<Binding, A>,
}

/// The number that an argument is; a name is none.
fn literal(arg: Option<&Arg>) -> Option<i32>
    ensures { result ≡ literal (option_copied arg.entry) }
{
    match arg {
        Some(Arg::Integer(n)) => Some(*n),
        _ => None,
    }
}

/// The number of the input that a call asks for, if the line says it.
fn input_asked(op: Op, args: &[Arg]) -> Option<i32>
    ensures { result ≡ input_asked op args.now }
{
    match op {
        Op::Input | Op::Nested => literal(args.first()),
        _ => None,
    }
}

/// Appends what a call binds.
fn put_results<A: Memory>(
    call: &Call<A>,
    number: u32,
    bindings: &mut Vec<Binding, A>,
) -> Result<(), NoResources>
    ensures { OnOk result (bindings.new.items ≡ bindings.old.items ++ bound_by_call number (Ok (Some call.now))) }
{
    let input = input_asked(call.op, call.args.as_slice());
    let binding = |name| Binding {
        name,
        line: number,
        input,
    };
    bindings.reserve(2)?;
    match call.results {
        ResultNames::None => {}
        ResultNames::One(name) => bindings.push(binding(name))?,
        ResultNames::Two(first, second) => {
            bindings.push(binding(first))?;
            bindings.push(binding(second))?;
        }
    }
    Ok(())
}

/// Appends what a line binds.
fn put_bindings<A: Memory>(
    alloc: A,
    line: &[u8],
    number: u32,
    bindings: &mut Vec<Binding, A>,
) -> Result<(), NoResources>
    ensures { OnOk result (bindings.new.items ≡ bindings.old.items ++ bound_by_call number (call_of {A = A} line.now)) }
{
    match read_line(alloc, line) {
        Err(Refused::NoResources) => Err(NoResources),
        Err(Refused::Fault(_)) => Ok(()),
        Ok(None) => Ok(()),
        Ok(Some(call)) => put_results(&call, number, bindings),
    }
}

/// The line of a script with this number, from 1 on, and what the lines before it bind.
pub(crate) fn stopped_at<A: Memory>(
    alloc: A,
    script: &[u8],
    line: u32,
) -> Result<Stopped<'_, A>, NoResources>
    ensures line { IfOk result (λ stopped. stopped.line.now ≡ line_at script.now line) }
    ensures bindings { IfOk result (λ stopped. stopped.bindings.items ≡ bound_before A script.now line) }
{
    let mut bindings = Vec::new(alloc);
    let mut rest = Some(script);
    for number in 1..line {
        let Some(bytes) = rest else {
            break;
        };
        let (text, others) = next_line(bytes);
        put_bindings(alloc, text, number, &mut bindings)?;
        rest = others;
    }
    let line = match rest {
        Some(bytes) => next_line(bytes).0,
        None => b"",
    };
    Ok(Stopped { line, bindings })
}

/// The last binding of a name.
pub(crate) fn last_binding<'b>(bindings: &'b [Binding], name: &Name) -> Option<&'b Binding>
    ensures { option_copied result ≡ last_binding name.now bindings.now }
{
    bindings.iter().rev().find(|binding| binding.name == *name)
}
