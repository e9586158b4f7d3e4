//! Inputs, each read by as many threads as its length pays for.

ghost use Rattle.std.specs.Prelude.{◌≤◌, IfOk, vec_len};
ghost use Rattle.cvl_base.specs.Gives.{Gives};
ghost use Rattle.cvl_base.specs.Limits.{most_elements};
ghost use Rattle.call_reader.specs.Inputs.{input_of};

use crate::inputs::read_vector_alone;
use crate::piece_reads::read_by_several;
use cvl_base::{Config, Memory, Refused};
use sharing::threads_reading;
use std::thread::Threads;

/// Reads an input: signed decimals between white space.
///
/// Its faults are `TooLong`, without a place, if there are more than 4,194,304 tokens, whatever they are, else `BadInput` at the
/// first token that is no integer of 32 bits, counted from 0. `NoResources` if memory is refused for the numbers, or for the
/// pieces of a long input and their counts. Several threads read a long input, but no more than the configuration has workers.
pub fn read_vector<R: Threads + Sync, A: Memory>(
    rt: &R,
    alloc: A,
    config: Config,
    bytes: &[u8],
) -> Result<Vec<i32, A>, Refused>
    ensures values { Gives (λ v. v.items) result (input_of bytes.now) }
    ensures in_limit { IfOk result (λ v. vec_len v ≤ most_elements) }
{
    let threads = threads_reading(config, bytes.len());
    if threads.get() < 2 {
        return read_vector_alone(alloc, bytes);
    }
    read_by_several(rt, alloc, threads, bytes)
}
