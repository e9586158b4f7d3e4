//! Files that are read whole, into memory that several threads touch ahead of the bytes.

ghost use Rattle.std.specs.Prelude.{◌≡◌, ◌+◌, ◌-◌, ◌^◌, ◌<◌, ◌≤◌, List, Option, ℕ, IfOk, IfSome, IsTrue, length, max, min, take};
ghost use Rattle.std.specs.Io.KnownBytes.{Consumes, IsAtEnd};

use crate::read_failures::failure_of;
use cvl_base::Config;
use fresh::extend_by_copies;
use script_runs::ReadFailure;
use sharing::threads_clearing;
use std::alloc::Allocator;
use std::io::{ErrorKind, Read};
use std::thread::Threads;

/// How many bytes of memory to make ready for a long file before its first read.
const FIRST_STEP: usize = 1_048_576;

/// Reads into a room from this place on, until the room is full, the file ends, or a read is interrupted. Returns how many places
/// are filled, and whether the file ended; or why a read failed.
fn fill<F: Read>(file: &mut F, room: &mut [u8], from: usize) -> Result<(usize, bool), ReadFailure>
    requires { from ≤ length room.old }
    ensures within { IfOk result (λ r. (from ≤ r.0) × (r.0 ≤ length room.new)) }
    ensures bytes { IfOk result (λ r. (before : Option (List ℕ))
        → Consumes before (F.remaining file.old) (take from room.old)
        → Consumes before (F.remaining file.new) (take r.0 room.new)) }
    ensures end { IfOk result (λ r. IsTrue r.1 → IsAtEnd (F.remaining file.new)) }
{
    let mut filled = from;
    while filled < room.len() {
        let (_, left) = room.split_at_mut(filled);
        match file.read(left) {
            Ok(0) => return Ok((filled, true)),
            Ok(count) => filled += count,
            Err(error) if error.kind() == ErrorKind::Interrupted => break,
            Err(error) => return Err(failure_of(error.kind())),
        }
    }
    Ok((filled, false))
}

/// How many more bytes of memory to ask for after so many bytes of those expected were read: one more than are left, which shows
/// that the file has ended.
fn places_left(read: usize, expected: usize) -> usize
    ensures { result ≡ min (expected + 1) (2 ^ 64 - 1) - read }
{
    expected.saturating_add(1).saturating_sub(read)
}

/// How many of these to write next: as many as bytes were read, but at least a mebibyte.
fn next_step(read: usize, expected: usize) -> usize
    ensures { result ≡ min (min (expected + 1) (2 ^ 64 - 1) - read) (max read 1048576) }
{
    places_left(read, expected).min(read.max(FIRST_STEP))
}

/// Memory for a file that is read whole.
///
/// The system makes a page of fresh memory when it is first written, which takes longer than reading the page's bytes. So for a
/// long file several threads write the memory, in steps: a mebibyte, and then as much as was read so far. A file that is shorter
/// than expected takes at most a mebibyte, or twice its bytes.
#[derive(Drop)]
pub struct FileRoom<'a, R, A> {
    rt: &'a R,
    alloc: A,
    config: Config,
}

impl<'a, R: Threads + Sync, A: Allocator> FileRoom<'a, R, A> {
    /// Memory of this allocator, written by at most as many threads as the configuration has workers.
    pub fn new(rt: &'a R, alloc: A, config: Config) -> FileRoom<'a, R, A> {
        FileRoom { rt, alloc, config }
    }

    /// All bytes left in a file, of which `expected` are expected; or why a read failed, also for want of memory.
    // `read_to_end` repeats an interrupted read.
    pub fn read_whole<F: Read>(
        self,
        file: &mut F,
        expected: usize,
    ) -> Result<Vec<u8, A>, ReadFailure>
        ensures { IfOk result (λ bytes. IfSome (F.remaining file.old) (λ left. bytes.items ≡ left)) }
    {
        let (mut bytes, at_end) = self.read_expected(file, expected)?;
        if at_end {
            return Ok(bytes);
        }
        match file.read_to_end(&mut bytes) {
            Ok(_) => Ok(bytes),
            Err(error) => Err(failure_of(error.kind())),
        }
    }

    /// Reads the expected bytes, as far as several threads pay and memory is granted, and returns whether the file has ended.
    // Asks for a mebibyte, and then at once for all that is expected: memory that isn't written costs nothing, while a block that
    // grows is copied.
    fn read_expected<F: Read>(
        self,
        file: &mut F,
        expected: usize,
    ) -> Result<(Vec<u8, A>, bool), ReadFailure>
        ensures bytes { IfOk result (λ r. Consumes (F.remaining file.old) (F.remaining file.new) r.0.items) }
        ensures end { IfOk result (λ r. IsTrue r.1 → IsAtEnd (F.remaining file.new)) }
    {
        let FileRoom { rt, alloc, config } = self;
        let mut bytes = Vec::new(alloc);
        if threads_clearing(config, expected).get() < 2 {
            return Ok((bytes, false));
        }
        let mut step = next_step(0, expected);
        while step > 0 {
            let read = bytes.len();
            let room = if read == 0 {
                step
            } else {
                places_left(read, expected)
            };
            if bytes.reserve_exact(room).is_err() {
                break;
            }
            let threads = threads_clearing(config, step);
            bytes = extend_by_copies(rt, threads, bytes, 0, step);
            let (filled, at_end) = fill(file, bytes.as_mut_slice(), read)?;
            bytes.truncate(filled);
            if at_end || filled < read + step {
                return Ok((bytes, at_end));
            }
            step = next_step(filled, expected);
        }
        Ok((bytes, false))
    }
}
