//! The arguments of a call in an explanation: what each name holds, and the line that bound it.

ghost use Rattle.std.specs.Prelude.{◌≡◌, ◌++◌, OnOk, option_copied, option_map};
ghost use Rattle.std.specs.List.{list_any};
ghost use Rattle.bound_names.specs.Arguments.{arg_value};
ghost use Rattle.explained_values.specs.Arguments.{value_held};
ghost use Rattle.explanations.specs.ArgumentLines.{argument_line, argument_lines, binding_words, file_words, input_words};
ghost use Rattle.explanations.specs.ArgumentLines.{is_named, names_in, new_line};

use crate::bindings::{Binding, last_binding};
use crate::input_files::file_at;
use cvl_base::{Arg, Memory, Name, NoResources};
use explained_calls::{Line, Number, Shown, Words, said};
use explained_values::{Argument, Holding};
use vector_handles::Session;

/// What an argument holds in a session.
pub(crate) fn holding_of<'a, A: Memory>(session: &'a Session<A>, arg: &Arg) -> Holding<'a, A>
    ensures { value_held result ≡ arg_value session.now.names arg.now }
{
    match arg {
        Arg::Name(name) => match session.get(name) {
            Some(value) => Holding::Value(value),
            None => Holding::Nothing,
        },
        Arg::Integer(n) => Holding::Integer(*n),
        Arg::Boolean(b) => Holding::Boolean(*b),
    }
}

/// The name of an input's file, if it is known: ` (index.txt)`.
#[derive(Drop)]
struct InFile<'f>(Option<&'f str>);

impl<'f> Words for InFile<'f> {
    ghost words = { λ file. file_words (option_map (λ name. name.now) file.0) };

    fn put<A: Memory>(&self, text: &mut Vec<u8, A>) -> Result<(), NoResources> {
        match self.0 {
            None => Ok(()),
            Some(file) => said![b" (", Shown(file.as_bytes()), b")"].put(text),
        }
    }
}

/// Which input a line binds a name to: ` by input 2 (index.txt)`.
#[derive(Drop)]
struct ByInput<'s, 'f> {
    files: &'s [&'f str],
    number: Option<i32>,
}

impl<'s, 'f> Words for ByInput<'s, 'f> {
    ghost words = { λ by. input_words (names_in by.files.now) by.number };

    fn put<A: Memory>(&self, text: &mut Vec<u8, A>) -> Result<(), NoResources> {
        match self.number {
            None => Ok(()),
            Some(number) => {
                let file = InFile(file_at(self.files, number));
                said![b" by input ", Number(number), file].put(text)
            }
        }
    }
}

/// What bound a name: `, bound at line 1 by input 2 (index.txt)`.
#[derive(Drop)]
struct Bound<'s, 'f, 'b> {
    files: &'s [&'f str],
    binding: Option<&'b Binding>,
}

impl<'s, 'f, 'b> Words for Bound<'s, 'f, 'b> {
    ghost words = { λ bound. binding_words (names_in bound.files.now) (option_copied bound.binding) };

    fn put<A: Memory>(&self, text: &mut Vec<u8, A>) -> Result<(), NoResources> {
        match self.binding {
            None => b", bound before the script".put(text),
            Some(binding) => {
                let input = ByInput {
                    files: self.files,
                    number: binding.input,
                };
                said![b", bound at line ", Number(binding.line), input].put(text)
            }
        }
    }
}

/// Appends the line of a name among the arguments of a call.
fn put_name<A: Memory>(
    session: &Session<A>,
    files: &[&str],
    bindings: &[Binding],
    name: &Name,
    text: &mut Vec<u8, A>,
) -> Result<(), NoResources>
    ensures { OnOk result (text.new.items ≡ text.old.items
        ++ argument_line session.now.names (names_in files.now) bindings.now (Arg.Name name.now)) }
{
    match session.get(name) {
        Some(value) => {
            let argument = Argument::new(name.as_bytes(), Holding::Value(value));
            let binding = last_binding(bindings, name);
            Line(said![argument, Bound { files, binding }]).put(text)
        }
        None => Line(Argument::<A>::new(name.as_bytes(), Holding::Nothing)).put(text),
    }
}

/// Whether an argument is this name.
fn is_named(arg: &Arg, name: &Name) -> bool
    ensures { result ≡ is_named name.now arg.now }
{
    match arg {
        Arg::Name(other) => other == name,
        _ => false,
    }
}

/// Whether a name is among arguments.
fn is_among(args: &[Arg], name: &Name) -> bool
    ensures { result ≡ list_any (is_named name.now) args.now }
{
    args.iter().any(|arg| is_named(arg, name))
}

/// Appends the line of an argument behind others; a number, `T` or `F` has none, and a name that is among the others neither.
fn put_new_line<A: Memory>(
    session: &Session<A>,
    files: &[&str],
    bindings: &[Binding],
    before: &[Arg],
    arg: &Arg,
    text: &mut Vec<u8, A>,
) -> Result<(), NoResources>
    ensures { OnOk result (text.new.items ≡ text.old.items
        ++ new_line before.now session.now.names (names_in files.now) bindings.now arg.now) }
{
    match arg {
        Arg::Name(name) => {
            if is_among(before, name) {
                Ok(())
            } else {
                put_name(session, files, bindings, name, text)
            }
        }
        Arg::Integer(_) => Ok(()),
        Arg::Boolean(_) => Ok(()),
    }
}

/// Appends the lines of the arguments of a call, one for each name, at the first of its places.
pub(crate) fn put_arguments<A: Memory>(
    session: &Session<A>,
    files: &[&str],
    bindings: &[Binding],
    args: &[Arg],
    text: &mut Vec<u8, A>,
) -> Result<(), NoResources>
    ensures { OnOk result (text.new.items ≡ text.old.items
        ++ argument_lines session.now.names (names_in files.now) bindings.now args.now) }
{
    for (place, arg) in args.iter().enumerate() {
        put_new_line(session, files, bindings, &args[..place], arg, text)?;
    }
    Ok(())
}
