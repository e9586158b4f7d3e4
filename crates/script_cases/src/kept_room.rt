//! Room that the C library keeps for the runs, so that each has its vectors in memory that an earlier one had.
//!
//! glibc gives a long block back to the system as soon as it is freed, and the system clears each page of the next one when it is
//! first written. That took a third of all the processor time of the cases. So blocks are taken once and freed, below a block
//! that stays: memory below a block in use is never given back.
//!
//! No result depends on it, and with another C library nothing is kept.

use cvl_base::NoResources;
use std::alloc::Global;

/// How many bytes a block has: the vectors of the longest runs fit, and glibc keeps no longer block of 33,554,432 bytes or more.
const BLOCK: usize = 33_000_000;

/// How many blocks there are: what the longest runs have at one moment, 20 vectors of 4,194,304 integers.
const BLOCKS: usize = 12;

/// How many bytes the block has that stays.
const LAST: usize = 1_000_000;

/// A block of so many bytes, none of which is written.
fn block_of(alloc: Global, bytes: usize) -> Result<Vec<u8>, NoResources> {
    Ok(Vec::with_capacity(alloc, bytes)?)
}

/// Makes the C library keep the room, as long as the block that it returns is there.
pub fn keep_room(alloc: Global) -> Result<Vec<u8>, NoResources> {
    // glibc keeps blocks that are as long as one that was freed
    drop(block_of(alloc, BLOCK)?);
    let mut blocks = Vec::new(alloc);
    for _ in 0..BLOCKS {
        blocks.push(block_of(alloc, BLOCK)?)?;
    }
    block_of(alloc, LAST)
}
