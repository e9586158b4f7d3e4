//! The points that a worker passes, and gates at which a test holds it there.

/// A point in a worker's way through one tile, in the order of passing. Tiles count from 0.
#[derive(Clone, Copy, Debug, PartialEq, Eq)]
pub enum Point {
    /// The tile was given to the worker.
    Claimed(u32),
    /// The worker has published the tile's sum.
    Summed(u32),
    /// The worker knows what stands before the tile.
    Looked(u32),
    /// The worker has made the tile's items.
    Finished(u32),
}

/// What a worker does at each point, so that a test can hold one worker until others have passed some point.
///
/// Whatever a gate does, the work's result is the same.
pub trait Gate: Sync {
    /// Lets the worker of this number, counted from 0, pass the point. It always returns.
    fn pass(&self, worker: u32, point: Point);
}

/// The gate that holds nobody.
#[derive(Clone, Copy, Debug, Default)]
pub struct OpenGate;

impl Gate for OpenGate {
    fn pass(&self, _worker: u32, _point: Point) {}
}
