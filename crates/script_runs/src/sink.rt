//! Where the text of a script goes.

ghost use Rattle.std.specs.Prelude.{◌^◌, ◌<◌, ◌-◌};
ghost use Rattle.script_runs.specs.Hosts.{Seen};
ghost use Rattle.script_runs.specs.Sinks.{Puts};

/// A sink has failed.
#[derive(Clone, Copy, Debug, PartialEq, Eq)]
pub struct SinkFault;

/// Takes the text of a script, a front at a time.
pub trait Sink {
    /// What the sink shows: the bytes taken so far, if it records them, how often it has failed, and whatever else it has, as a
    /// host has files and a standard error.
    ghost seen: { Self → Seen };

    /// Takes a front of the bytes, at least one if there are any, and returns how many; or fails and takes none. Of no bytes it
    /// takes none and does not fail. Only the bytes and the failures change.
    fn put(&mut self, bytes: &[u8]) -> Result<usize, SinkFault>
        requires { (seen self.old).failed_puts < 2 ^ 64 - 1 }
        ensures { Puts (seen self.old) bytes.now result (seen self.new) };
}
