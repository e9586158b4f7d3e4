//! What is known of a tile.

/// What has been told of a tile so far. A run's sum is a pair: whether a segment starts in the run, and what its
/// elements join to since the last start.
///
/// Source: the flags of Merrill and Garland's decoupled look-back (invalid, aggregate available, prefix available).
#[derive(Clone, Copy, Debug, PartialEq, Eq)]
pub enum Status<T> {
    /// Nothing.
    Silent,
    /// The sum of the tile's own elements.
    Sum(bool, T),
    /// The sum of the elements of this tile and of all tiles before it.
    Prefix(bool, T),
}
