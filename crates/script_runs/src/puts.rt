//! Texts that are put whole.

ghost use Rattle.std.specs.Prelude.{◌^◌, ◌<◌, ◌-◌};
ghost use Rattle.script_runs.specs.Sinks.{PutsAll};

use crate::sink::{Sink, SinkFault};

/// Puts front after front until the sink has taken all the bytes, or fails; then it has taken only a beginning of them.
pub fn put_all<S: Sink>(sink: &mut S, bytes: &[u8]) -> Result<(), SinkFault>
    requires { (S.seen sink.old).failed_puts < 2 ^ 64 - 1 }
    ensures { PutsAll (S.seen sink.old) bytes.now result (S.seen sink.new) }
{
    let mut put = 0;
    while put < bytes.len() {
        let (_, left) = bytes.split_at(put);
        put += sink.put(left)?;
    }
    Ok(())
}
