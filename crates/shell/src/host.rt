//! What a program runs on.

ghost use Rattle.std.specs.Prelude.{◌^◌, ◌<◌, ◌-◌, ◌∷◌, [], Some, is_ok};
ghost use denote.Param.Send.{IsSync};
ghost use Rattle.script_runs.specs.Hosts.{Shows, Tells, bytes_read, read_of, with_flush, with_reads};

use crate::whole_files::FileRoom;
use cvl_base::Memory;
use script_runs::{ReadFailure, Sink, SinkFault};
use std::thread::Threads;

/// What a program runs on: its files, and where its text goes. `put` is standard output.
pub trait Host: Sink {
    /// The whole of a file, or why it cannot be read. Either is a read.
    ///
    /// `room` reads it, and takes the number of bytes that the file should have, if that is known.
    // A clause too says that the runtime may be shared, since a bound of a method is assumed of the calling thread alone.
    fn read_file<R: Threads + Sync, A: Memory>(
        &mut self,
        name: &str,
        room: FileRoom<'_, R, A>,
    ) -> Result<Vec<u8, A>, ReadFailure>
        requires { IsSync R.row }
        ensures { Shows
            (with_reads (read_of name.now (bytes_read result) ∷ []) (Self.seen self.old))
            (Self.seen self.new) };

    /// Flushes standard output: sends on all that it has taken.
    fn flush(&mut self) -> Result<(), SinkFault>
        requires { (Self.seen self.old).failed_flushes < 2 ^ 64 - 1 }
        ensures { Shows (with_flush (is_ok result) (Self.seen self.old)) (Self.seen self.new) };

    /// Writes one message to standard error, which takes it, or loses all but a beginning.
    fn put_error(&mut self, bytes: &[u8])
        ensures { Tells (Some bytes.now) (Self.seen self.old) (Self.seen self.new) };
}
