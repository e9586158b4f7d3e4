//! A host over a reader of files and two writers.

ghost use Rattle.std.specs.Prelude.{◌≡◌, ◌∷◌, [], true, false};
ghost use denote.Param.Send.{IsSync};
ghost use Rattle.script_runs.specs.Hosts.{IsTold, bytes_read, read_of, with_more};
ghost use Rattle.shell.specs.Streams.{WritesWhole};

use crate::host::Host;
use crate::whole_files::FileRoom;
use cvl_base::Memory;
use script_runs::{ReadFailure, Sink, SinkFault};
use std::io::Write;
use std::thread::Threads;

/// Reads files whole.
pub trait ReadFiles {
    ghost use Rattle.std.specs.Prelude.{List, Option};
    ghost use Rattle.script_runs.specs.Hosts.{Read};

    /// The reads so far; none if the reader does not record them.
    ghost reads: { Self → Option (List Read) };

    /// The whole of a file, or why it cannot be read. Either is a read.
    ///
    /// `room` reads it, and takes the number of bytes that the file should have, if that is known.
    // A clause too says that the runtime may be shared, since a bound of a method is assumed of the calling thread alone.
    fn read_file<R: Threads + Sync, A: Memory>(
        &mut self,
        name: &str,
        room: FileRoom<'_, R, A>,
    ) -> Result<Vec<u8, A>, ReadFailure>
        requires { IsSync R.row }
        ensures { IsTold
            (with_more (read_of name.now (bytes_read result) ∷ []) (reads self.old))
            (reads self.new) };
}

/// A host over a reader of files, a writer for standard output and one for standard error. It shows what these show: everything
/// if they keep what they take in memory, and nothing if they are the system's.
#[derive(Drop)]
pub struct StreamHost<F, O, E> {
    /// The reader of files.
    pub files: F,
    /// Standard output.
    pub output: O,
    /// Standard error.
    pub errors: E,
    /// How often a write to standard output failed.
    pub failed_puts: u64,
    /// How often a flush of standard output failed.
    pub failed_flushes: u64,
    /// Whether standard output was flushed after its last byte.
    pub sent: bool,
    /// Whether it was, when standard error last took a message.
    pub told_sent: bool,
    /// Whether a part of a message was lost.
    pub lost: bool,
}

impl<F, O, E> StreamHost<F, O, E> {
    /// A new host over these files, this output and these errors: it has nothing to flush, no message was written, and nothing
    /// failed or was lost.
    pub fn new(files: F, output: O, errors: E) -> StreamHost<F, O, E>
        ensures files { result.files ≡ files }
        ensures output { result.output ≡ output }
        ensures errors { result.errors ≡ errors }
        ensures puts { result.failed_puts ≡ 0 }
        ensures flushes { result.failed_flushes ≡ 0 }
        ensures sent { result.sent ≡ true }
        ensures told_sent { result.told_sent ≡ true }
        ensures lost { result.lost ≡ false }
    {
        StreamHost {
            files,
            output,
            errors,
            failed_puts: 0,
            failed_flushes: 0,
            sent: true,
            told_sent: true,
            lost: false,
        }
    }
}

/// Writes until the writer has taken all the bytes, and returns whether it has. Stops at a write that fails, or takes none of
/// some bytes.
fn write_whole<W: Write>(bytes: &[u8], writer: &mut W) -> bool
    ensures { WritesWhole (W.contents writer.old) bytes.now result (W.contents writer.new) }
{
    let mut written = 0;
    while written < bytes.len() {
        let (_, left) = bytes.split_at(written);
        match writer.write(left) {
            Ok(0) => return false,
            Ok(taken) => written += taken,
            Err(_) => return false,
        }
    }
    true
}

/// A write that takes none of some bytes has failed.
impl<F: ReadFiles, O: Write, E: Write> Sink for StreamHost<F, O, E> {
    ghost seen = { λ h. record {
      output = O.contents h.output;
      failed_puts = h.failed_puts;
      sent = h.sent;
      failed_flushes = h.failed_flushes;
      errors = E.contents h.errors;
      told_sent = h.told_sent;
      lost = h.lost;
      reads = F.reads h.files;
    } };

    fn put(&mut self, bytes: &[u8]) -> Result<usize, SinkFault> {
        if bytes.is_empty() {
            return Ok(0);
        }
        match self.output.write(bytes) {
            Ok(taken) if taken > 0 => {
                self.sent = false;
                Ok(taken)
            }
            _ => {
                self.failed_puts += 1;
                Err(SinkFault)
            }
        }
    }
}

impl<F: ReadFiles, O: Write, E: Write> Host for StreamHost<F, O, E> {
    fn read_file<R: Threads + Sync, A: Memory>(
        &mut self,
        name: &str,
        room: FileRoom<'_, R, A>,
    ) -> Result<Vec<u8, A>, ReadFailure> {
        self.files.read_file(name, room)
    }

    fn flush(&mut self) -> Result<(), SinkFault> {
        match self.output.flush() {
            Ok(()) => {
                self.sent = true;
                Ok(())
            }
            Err(_) => {
                self.failed_flushes += 1;
                Err(SinkFault)
            }
        }
    }

    fn put_error(&mut self, bytes: &[u8]) {
        self.told_sent = self.sent;
        if !write_whole(bytes, &mut self.errors) {
            self.lost = true;
        }
    }
}
