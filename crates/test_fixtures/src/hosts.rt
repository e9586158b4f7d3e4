//! The host in memory on which the program runs, and its texts.

ghost use Rattle.std.specs.Prelude.{◌≡◌};

use cvl_base::{Memory, NoResources};
use shell::{FileRoom, ReadFailure, ReadFiles, StreamHost};
use std::alloc::{AllocError, Global};
use std::io::{Error, ErrorKind, Result as IoResult, Write};
use std::thread::Threads;
use vector_handles::Input;

/// Names of files, each with its bytes.
pub type Files<'a> = &'a [(&'a str, &'a str)];

/// Names of files that cannot be read, each with the reason; no other file has a name that is not in the table of files.
const UNREADABLE: &[(&str, ReadFailure)] = &[
    ("folder", ReadFailure::IsADirectory),
    ("shut", ReadFailure::PermissionDenied),
    ("broken", ReadFailure::Other),
];

/// Why a file that is not in the table cannot be read.
fn failure_of(name: &str) -> ReadFailure {
    for (unreadable, why) in UNREADABLE {
        if *unreadable == name {
            return *why;
        }
    }
    ReadFailure::NotFound
}

/// Files in memory, with no claim about what was read.
#[derive(Drop)]
pub struct TableFiles<'a> {
    files: Files<'a>,
}

impl ReadFiles for TableFiles<'_> {
    ghost use Rattle.std.specs.Prelude.{None};

    ghost reads = { λ _. None };

    fn read_file<R: Threads + Sync, A: Memory>(
        &mut self,
        name: &str,
        room: FileRoom<'_, R, A>,
    ) -> Result<Vec<u8, A>, ReadFailure> {
        for (file, text) in self.files {
            if *file == name {
                return room.read_whole(&mut text.as_bytes(), text.len());
            }
        }
        Err(failure_of(name))
    }
}

/// What fails on a host. Its standard output takes a byte a write unless this says otherwise.
#[derive(Clone, Copy)]
pub enum Failing {
    Nothing,
    /// The flush.
    Flush,
    /// Each write of standard output after so many, of so many bytes each besides the first.
    Writes(usize, u64),
    /// Standard output, which is full after so many bytes.
    Room(u64),
    /// Each write of standard error after so many, of a byte each.
    Errors(u64),
}

/// A writer in memory that takes few bytes a write, and after so many writes fails, or is full.
#[derive(Drop)]
pub struct NarrowWriter {
    /// The bytes taken so far.
    pub taken: Vec<u8>,
    /// How many bytes a flush has sent on.
    pub sent: usize,
    /// How many bytes it takes a write, besides the first.
    more_a_write: usize,
    /// How many writes it takes.
    writes_left: u64,
    /// What fails.
    failing: Failing,
}

impl NarrowWriter {
    /// A writer that takes so many bytes a write besides the first, so many times.
    fn new(alloc: Global, more_a_write: usize, writes_left: u64, failing: Failing) -> NarrowWriter {
        NarrowWriter {
            taken: Vec::new(alloc),
            sent: 0,
            more_a_write,
            writes_left,
            failing,
        }
    }
}

impl Write for NarrowWriter {
    ghost use Rattle.std.specs.Prelude.{Some};

    ghost contents = { λ w. Some w.taken.items };

    fn write(&mut self, buf: &[u8]) -> IoResult<usize> {
        if buf.is_empty() {
            return Ok(0);
        }
        let count = self.more_a_write.min(buf.len() - 1) + 1;
        let (front, _) = buf.split_at(count);
        if self.writes_left > 0 && self.taken.extend_from_slice(front).is_ok() {
            self.writes_left -= 1;
            return Ok(count);
        }
        match self.failing {
            Failing::Room(_) => Ok(0),
            _ => Err(Error::from(ErrorKind::BrokenPipe)),
        }
    }

    fn flush(&mut self) -> IoResult<()> {
        if let Failing::Flush = self.failing {
            return Err(Error::from(ErrorKind::BrokenPipe));
        }
        self.sent = self.taken.len();
        Ok(())
    }
}

/// A host over files in memory.
pub type Host<'a> = StreamHost<TableFiles<'a>, NarrowWriter, NarrowWriter>;

/// A host with these files, on which this fails.
pub fn host_with<'a>(alloc: Global, files: Files<'a>, failing: Failing) -> Host<'a>
    ensures puts { result.failed_puts ≡ 0 }
    ensures flushes { result.failed_flushes ≡ 0 }
{
    let (more, writes) = match failing {
        Failing::Writes(more, writes) => (more, writes),
        Failing::Room(bytes) => (0, bytes),
        _ => (0, u64::MAX),
    };
    // a message is one write, so that the messages of two programs don't mix: the line of a stop, and its explanation
    let (more_told, messages) = match failing {
        Failing::Errors(writes) => (0, writes),
        _ => (usize::MAX, 2),
    };
    let output = NarrowWriter::new(alloc, more, writes, failing);
    let errors = NarrowWriter::new(alloc, more_told, messages, Failing::Nothing);
    StreamHost::new(TableFiles { files }, output, errors)
}

/// The inputs with these texts.
pub fn inputs_of<A: Memory>(alloc: A, texts: &[&str]) -> Result<Vec<Input<A>, A>, NoResources> {
    let mut inputs = Vec::with_capacity(alloc, texts.len())?;
    for text in texts {
        let bytes = Vec::from_slice(alloc, text.as_bytes())?;
        inputs.push(Input::Bytes(bytes))?;
    }
    Ok(inputs)
}

/// A text of one piece, repeated, between two others.
pub fn text_of(
    alloc: Global,
    first: &str,
    piece: &str,
    times: usize,
    last: &str,
) -> Result<String, AllocError> {
    let mut text = String::from_str(alloc, first)?;
    for _ in 0..times {
        text.push_str(piece)?;
    }
    text.push_str(last)?;
    Ok(text)
}
