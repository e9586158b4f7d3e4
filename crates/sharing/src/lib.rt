//! Rules of thumb: how many threads share a call, by how many elements it writes, how a fork cuts them in two, how much of the
//! call the first few of them have, and whether workers race for its tiles. No result depends on them.
//!
//! A fork takes a [`ThreadCount`], or a [`Pace`] of a race. Only this crate makes them, from a configuration; neither has more
//! threads than the configuration has workers.
//!
//! All thresholds of the library are here, and as definitions in `specs/Thresholds.antt`, to which the contracts tie them. They
//! were measured on a machine with four processors.
#![tactic(auto)]

mod forks;
mod pace;
mod shares;
mod thread_count;
mod threads;

pub use forks::first_of_two;
pub use pace::{Pace, race_shape};
pub use shares::share_of_first;
pub use thread_count::ThreadCount;
pub use threads::{
    all_workers, threads_among, threads_clearing, threads_reading, threads_writing,
    threads_writing_text,
};

/// The least number of elements to write for which a second thread pays. One thread writes fewer before another has started.
pub const LEAST_SHARED: usize = 262_144;

/// How many elements each thread writes at least.
pub const LEAST_EACH: usize = 131_072;

/// From this tile length on, in elements, a vector's length decides whether workers race for its tiles. If you ask for shorter
/// tiles, you ask for the race itself, and get the tiles and the workers that you ask for.
pub const LONG_TILE: u32 = 1_024;

/// From this many elements on workers race for a scan, which several threads write after the race.
pub const LEAST_SCANNED: usize = 262_144;

/// From this many bytes of elements on workers race for a reduce, which takes as long as reading them.
pub const LEAST_REDUCED: usize = 1_048_576;

/// From this many elements on workers race for the first place of a fault, which takes as long as testing each element.
pub const LEAST_SEARCHED: usize = 262_144;

/// How many elements each worker of a race has at least.
pub const LEAST_RACED: u32 = 131_072;

/// The least number of tiles for each worker if tiles are made longer than you asked for. A worker that starts late, or is held
/// up, then leaves some of its tiles to the others.
pub const TILES_EACH: u32 = 16;

/// From this many bytes on several threads pay to read an input. They walk the bytes twice: they count the tokens before they
/// read them, which is far faster.
pub const LEAST_READ: usize = 131_072;

/// How many bytes of an input each thread reads at least.
pub const LEAST_READ_EACH: usize = 32_768;

/// From this many bytes on several threads pay to write fresh memory for a file before the file is read into it. The system makes
/// its pages then, which takes twice as long as reading the file's bytes.
pub const LEAST_CLEARED: usize = 1_048_576;

/// How many bytes of such memory each thread writes at least.
pub const LEAST_CLEARED_EACH: usize = 262_144;

/// From this many elements on a second thread pays to write their texts. Several threads walk the elements twice: they count the
/// bytes of their texts before they write them.
pub const LEAST_WRITTEN: usize = 32_768;

/// How many elements' texts each thread writes at least.
pub const LEAST_WRITTEN_EACH: usize = 16_384;

/// Up to this many threads, one of them starts all others in turn. A thread that starts others must wake up first, and each such
/// wait follows the one before; but one thread takes longer to start very many.
pub const LONGEST_CHAIN: usize = 8;
