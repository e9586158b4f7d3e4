//! The files that the command line names.

ghost use Rattle.std.specs.Prelude.{◌≡◌, ◌≤◌, [], ◌∷◌, length, IfOk, IfErr, vec_capacity};
ghost use Rattle.std.specs.List.{All};
ghost use Rattle.clap.specs.Walk.{texts};
ghost use Rattle.shell.specs.ProgramParts.{HasRoomFor, Misses, ReadsInputs};

use crate::endings::UNREADABLE_BYTES;
use crate::host::Host;
use crate::whole_files::FileRoom;
use command_line::Words;
use cvl_base::{Config, Memory, NoResources};
use script_runs::ReadFailure;
use std::thread::Threads;
use vector_handles::Input;

/// What must be ready before the first read: room for the inputs, and for the line about an unreadable file.
#[derive(Drop)]
pub(crate) struct RoomToRead<A: Memory> {
    pub(crate) inputs: Vec<Input<A>, A>,
    pub(crate) line: Vec<u8, A>,
}

/// A file that cannot be read, and why.
#[derive(Clone, Copy)]
pub(crate) struct Unread<'a> {
    pub(crate) name: &'a str,
    pub(crate) why: ReadFailure,
}

/// The bytes of the longest name.
fn longest_name(script: &str, inputs: &[&str]) -> usize
    ensures script { length script.now ≤ result }
    ensures inputs { All (λ name. length name ≤ result) (texts inputs.now) }
{
    let mut longest = script.len();
    for name in inputs {
        longest = longest.max(name.len());
    }
    longest
}

/// Makes the room for the files of these words.
pub(crate) fn room_for<A: Memory>(alloc: A, words: &Words<'_>) -> Result<RoomToRead<A>, NoResources>
    ensures inputs { IfOk result (λ room. room.inputs.items ≡ []) }
    ensures inputs_fit { IfOk result (λ room. length words.now.inputs.items ≤ vec_capacity room.inputs) }
    ensures line { IfOk result (λ room. room.line.items ≡ []) }
    ensures line_fits { IfOk result (λ room.
        HasRoomFor (vec_capacity room.line) (words.now.script.now ∷ texts words.now.inputs.items)) }
{
    let names = words.inputs.as_slice();
    let bytes = longest_name(words.script, names).saturating_add(UNREADABLE_BYTES);
    Ok(RoomToRead {
        inputs: Vec::with_capacity(alloc, names.len())?,
        line: Vec::with_capacity(alloc, bytes)?,
    })
}

/// Reads the inputs in order, up to the first that cannot be read.
pub(crate) fn read_inputs<'a, R: Threads + Sync, A: Memory, H: Host>(
    rt: &R,
    alloc: A,
    config: Config,
    names: &[&'a str],
    room: Vec<Input<A>, A>,
    host: &mut H,
) -> Result<Vec<Input<A>, A>, Unread<'a>>
    requires empty { room.items ≡ [] }
    requires fits { length names.now ≤ vec_capacity room }
    ensures read { IfOk result (λ inputs.
        ReadsInputs (texts names.now) (H.seen host.old) inputs.items (H.seen host.new)) }
    ensures missed { IfErr result (λ unread.
        Misses (texts names.now) (H.seen host.old) unread.name.now unread.why (H.seen host.new)) }
{
    let mut inputs = room;
    for name in names {
        match host.read_file(name, FileRoom::new(rt, alloc, config)) {
            Err(why) => return Err(Unread { name, why }),
            Ok(bytes) => inputs.push_reserved(Input::Bytes(bytes)),
        }
    }
    Ok(inputs)
}
