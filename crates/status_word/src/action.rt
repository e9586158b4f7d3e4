//! The steps of a worker, and their answers.

use crate::status::Status;

/// One atomic step of a worker, on one word. Tiles count from 0.
#[derive(Clone, Copy, Debug)]
pub enum Action<T> {
    /// The claim word goes up by one.
    Claim,
    /// A tile's word is read.
    Look(u32),
    /// The sum of a tile is told, unless as much is told of it already.
    TellSum(u32),
    /// The prefix of a tile is told: what stands before the tile, joined with the tile's sum.
    TellPrefix(u32, (bool, T)),
}

/// The answer to a step.
#[derive(Clone, Copy, Debug)]
pub enum Answer<T> {
    /// To a claim: this tile is the worker's.
    Tile(u32),
    /// To a claim: no tile is left.
    Done,
    /// To a look: what is told of the tile.
    Saw(Status<T>),
    /// To both tells: the sum of the tile that was told.
    Told((bool, T)),
}
