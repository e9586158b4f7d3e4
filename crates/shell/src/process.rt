//! The program, on its process's command line.

ghost use Rattle.std.specs.Prelude.{◌^◌, ◌<◌, ◌-◌, map};
ghost use Rattle.shell.specs.Programs.{IsNoText, IsStarved, PerformsOn, PerformsOnSome};

use crate::endings::{COMMAND_LINE, FAILED, tell_stop};
use crate::host::Host;
use crate::process_words::{are_texts, borrowed, process_words};
use crate::programs::program;
use crate::read_failures::failure_of;
use crate::stream_host::ReadFiles;
use crate::whole_files::FileRoom;
use cvl_base::Memory;
use script_runs::{ReadFailure, Stop};
use std::fs;
use std::fs::File;
use std::rt::{Env, Files};
use std::thread::Threads;

/// The system's files, which show nothing.
#[derive(Drop)]
pub struct SystemFiles<'a, R> {
    rt: &'a R,
}

impl<'a, R> SystemFiles<'a, R> {
    /// The files that this runtime reaches.
    pub fn new(rt: &'a R) -> SystemFiles<'a, R> {
        SystemFiles { rt }
    }
}

impl<R: Files> ReadFiles for SystemFiles<'_, R> {
    ghost use Rattle.std.specs.Prelude.{None};

    ghost reads = { λ _. None };

    fn read_file<T: Threads + Sync, A: Memory>(
        &mut self,
        name: &str,
        room: FileRoom<'_, T, A>,
    ) -> Result<Vec<u8, A>, ReadFailure> {
        let expected = expected_bytes(self.rt, name);
        match File::open(self.rt, name) {
            Err(error) => Err(failure_of(error.kind())),
            Ok(mut file) => room.read_whole(&mut file, expected),
        }
    }
}

/// How many bytes a read of the file will give, as far as the system knows; 0 if it doesn't.
fn expected_bytes<R: Files>(rt: &R, name: &str) -> usize {
    match fs::metadata(rt, name) {
        Ok(metadata) if metadata.is_file() => {
            usize::try_from(metadata.len()).unwrap_or(usize::MAX)
        }
        _ => 0,
    }
}

/// Reports that there is no memory for the command line's words; returns the status.
fn starved<H: Host>(host: &mut H) -> u8
    ensures { IsStarved (H.seen host.old) (H.seen host.new) result }
{
    tell_stop(&Stop::NoResources { line: 0 }, host);
    FAILED
}

/// Reports that a word of the command line is not UTF-8; returns the status.
fn tell_no_text<H: Host>(host: &mut H) -> u8
    ensures { IsNoText (H.seen host.old) (H.seen host.new) result }
{
    host.put_error(b"the command line is not UTF-8\n");
    COMMAND_LINE
}

/// Runs the program on these words, its own name first, and returns the status.
///
/// If a word is not UTF-8, standard error says so, and the status is 2; if there is no memory for their list, `line 0: no
/// resources` and 3.
pub fn run_words<R: Threads + Sync + AllocGlobal, A: Memory, H: Host>(
    rt: &R,
    alloc: A,
    words: &[Vec<u8>],
    host: &mut H,
) -> u8
    requires failures { (H.seen host.old).failed_puts < 2 ^ 64 - 1 }
    requires flushes { (H.seen host.old).failed_flushes < 2 ^ 64 - 1 }
    ensures { PerformsOn A (map (λ word. word.items) words.now) (H.seen host.old) (H.seen host.new) result }
{
    if !are_texts(words) {
        return tell_no_text(host);
    }
    match borrowed(rt.alloc(), words) {
        Err(_) => starved(host),
        Ok(texts) => program(rt, alloc, texts.as_slice(), host),
    }
}

/// Runs the program on its process's command line, and returns the status.
///
/// If there is no memory for the words, standard error says `line 0: no resources`, and the status is 3. Otherwise this is
/// [`run_words`].
pub fn run_process<R: Env + Threads + Sync + AllocGlobal, A: Memory, H: Host>(
    rt: &R,
    alloc: A,
    host: &mut H,
) -> u8
    requires failures { (H.seen host.old).failed_puts < 2 ^ 64 - 1 }
    requires flushes { (H.seen host.old).failed_flushes < 2 ^ 64 - 1 }
    ensures { PerformsOnSome A (H.seen host.old) (H.seen host.new) result }
{
    match process_words(rt) {
        Err(_) => starved(host),
        Ok(words) => run_words(rt, alloc, words.as_slice(), host),
    }
}
