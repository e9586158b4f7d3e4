//! What is known of a worker: plain data, about which proofs say what the worker did. No value of it is made.

use std::collections::LinkedList;

/// A state of a tile, which counts from 0: rank 0 is silent, 1 its sum, 2 its prefix.
pub struct Mark {
    /// The tile.
    pub tile: u32,
    /// The rank of its state.
    pub rank: u8,
    /// How many looks the worker had taken before.
    pub looks: u64,
}

/// What a pass has on every kind of board: the tiles that were given, the newest first, how often the worker was told that none
/// is left, and how many workers the pass stands for.
pub struct Hand {
    /// The tiles given.
    pub given: LinkedList<u32>,
    /// The marks that none is left.
    pub done: u64,
    /// The workers that the pass stands for.
    pub share: u64,
}

/// What a worker of a single-pass scan did, the newest first; if passes were joined, what several did, one after the other. The
/// sums are those of the board's tiles.
///
/// Source: the bookkeeping behind Merrill and Garland's decoupled look-back, 2016.
pub struct Pass<I> {
    /// The sums of the tiles.
    pub sums: LinkedList<(bool, I)>,
    /// What was given.
    pub hand: Hand,
    /// The states told.
    pub told: LinkedList<Mark>,
    /// The states seen.
    pub seen: LinkedList<Mark>,
    /// The number of looks.
    pub looks: u64,
}
