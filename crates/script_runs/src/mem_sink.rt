//! A sink that keeps the text in memory.

use crate::sink::{Sink, SinkFault};
use cvl_base::NoResources;
use std::alloc::Allocator;
use std::marker::Model;

/// A sink that keeps all bytes in memory, and fails if there is no memory for them.
#[derive(Drop)]
#[derive_where(Debug; A)]
pub struct MemSink<A: Allocator> {
    bytes: Vec<u8, A>,
    failures: u64,
}

impl<A: Allocator> Model for MemSink<A> {
    ghost use Rattle.std.specs.Prelude.{vec_capacity};
    ghost use Rattle.script_runs.specs.MemSinks.{Kept};

    ghost Value = { Kept };

    ghost view = { λ s.
        record { bytes = s.bytes.items; failures = s.failures; room = vec_capacity s.bytes } };
}

impl<A: Allocator> MemSink<A> {
    ghost use Rattle.std.specs.Prelude.{◌≡◌, ◌≤◌, [], IfOk};

    /// A sink that has taken nothing.
    pub fn new(alloc: A) -> MemSink<A>
        ensures bytes { result.bytes ≡ [] }
        ensures failures { result.failures ≡ 0 }
    {
        MemSink {
            bytes: Vec::new(alloc),
            failures: 0,
        }
    }

    /// A sink that has taken nothing, with room for this many bytes: it takes these without asking for memory.
    pub fn with_room(alloc: A, room: usize) -> Result<MemSink<A>, NoResources>
        ensures room { IfOk result (λ sink. room ≤ sink.room) }
        ensures bytes { IfOk result (λ sink. sink.bytes ≡ []) }
        ensures failures { IfOk result (λ sink. sink.failures ≡ 0) }
    {
        Ok(MemSink {
            bytes: Vec::with_capacity(alloc, room)?,
            failures: 0,
        })
    }

    /// The bytes taken so far.
    pub fn bytes(&self) -> &[u8]
        ensures { result.now ≡ self.now.bytes }
    {
        self.bytes.as_slice()
    }

    /// The bytes taken, as a `Vec`.
    pub fn into_vec(self) -> Vec<u8, A>
        ensures { result.items ≡ self.bytes }
    {
        self.bytes
    }
}

/// It takes all the bytes or fails; if there is room, it takes them.
impl<A: Allocator> Sink for MemSink<A> {
    ghost use Rattle.std.specs.Prelude.{◌≡◌, ◌+◌, ◌-◌, ◌^◌, ◌<◌, ◌≤◌, length, Some, IfOk, IsOk};
    ghost use Rattle.script_runs.specs.Hosts.{sink_seen};
    ghost use Rattle.script_runs.specs.Sinks.{Puts};

    ghost seen = { λ s. sink_seen (Some s.bytes) s.failures };

    fn put(&mut self, bytes: &[u8]) -> Result<usize, SinkFault>
        requires { self.old.failures < 2 ^ 64 - 1 }
        ensures puts { Puts (sink_seen (Some self.old.bytes) self.old.failures) bytes.now result
            (sink_seen (Some self.new.bytes) self.new.failures) }
        ensures whole { IfOk result (λ n. n ≡ length bytes.now) }
        ensures in_room { length self.old.bytes + length bytes.now ≤ self.old.room → IsOk result }
        ensures room { self.old.room ≤ self.new.room }
    {
        if bytes.is_empty() {
            return Ok(0);
        }
        match self.bytes.extend_from_slice(bytes) {
            Ok(()) => Ok(bytes.len()),
            Err(_) => {
                self.failures += 1;
                Err(SinkFault)
            }
        }
    }
}
