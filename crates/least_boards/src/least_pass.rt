//! What is known of a worker at a least board: plain data, about which proofs say what the worker did. No value of it is made.

use status_word::Hand;
use std::collections::LinkedList;

/// A place in a slot, which was lowered or seen there. Places and slots count from 0; the place 2^64-1 is none.
pub struct Low {
    /// The slot.
    pub slot: u32,
    /// The place.
    pub place: u64,
}

/// What a worker of a race for least places did, the newest first; if passes were joined, what several did, one after the other.
/// The targets, the slot of each place, and the number of tiles are those of the board.
pub struct LeastPass {
    /// The slot of each place, if it has one.
    pub targets: LinkedList<Option<u32>>,
    /// How many tiles there are.
    pub tiles: u32,
    /// What was given.
    pub hand: Hand,
    /// The places lowered.
    pub lowered: LinkedList<Low>,
    /// The places seen.
    pub seen: LinkedList<Low>,
}
