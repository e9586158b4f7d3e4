//! How a list is cut into tiles.

ghost use Rattle.std.specs.Prelude.{◌≡◌, ◌<◌, ◌≤◌, ◌==◌};
ghost use Rattle.tile_plan.specs.Ranges.{tile_count, range_of};

use std::marker::Model;

/// A list of elements cut into tiles of one length, except that the last may be shorter. Its model is the number of elements and
/// the length of a tile; it takes no memory.
#[derive(Clone, Copy, Debug)]
pub struct Plan {
    len: u32,
    tile: u32,
}

impl Model for Plan {
    ghost use Rattle.std.specs.Prelude.{◌≤◌};
    ghost use Rattle.tile_plan.specs.Ranges.{Tiling};

    ghost Value = { Tiling };

    ghost view = { λ p. record { len = p.len; tile = p.tile } };

    ghost invariant = { λ p. 1 ≤ p.tile };

    ghost inverse = { λ v. record { len = v.len; tile = v.tile } };
}

impl Plan {
    /// The plan of `len` elements in tiles of `tile` elements each. `tile` must be at least 1.
    pub fn new(len: u32, tile: u32) -> Plan
        requires { 1 ≤ tile }
        ensures { result ≡ record { len = len; tile = tile } }
    {
        Plan { len, tile }
    }

    /// How many elements there are.
    pub fn len(self) -> u32
        ensures value { result ≡ self.len }
        ensures tile { 1 ≤ self.tile }
    {
        self.len
    }

    /// Whether there is no element, and so no tile.
    pub fn is_empty(self) -> bool
        ensures { result ≡ (self.len == 0) }
    {
        self.len == 0
    }

    /// How many tiles there are: the number of elements divided by the length of a tile, rounded up.
    pub fn count(self) -> u32
        ensures value { result ≡ tile_count self.len self.tile }
        ensures at_most { result ≤ self.len }
        ensures tile { 1 ≤ self.tile }
    {
        self.len.div_ceil(self.tile)
    }

    /// Where tile `t` starts and ends, in places of the list, without the end. `t` must be below the count.
    pub fn range(self, t: u32) -> (u32, u32)
        requires { t < tile_count self.len self.tile }
        ensures value { result ≡ range_of self.len self.tile t }
        ensures filled { result.0 < result.1 }
        ensures within { result.1 ≤ self.len }
    {
        let start = t * self.tile;
        (start, start + self.tile.min(self.len - start))
    }

    /// The tile whose range has a place of the list.
    pub fn tile_at(self, place: u32) -> u32
        requires { place < self.len }
        ensures within { result < tile_count self.len self.tile }
        ensures begun { (range_of self.len self.tile result).0 ≤ place }
        ensures not_past { place < (range_of self.len self.tile result).1 }
    {
        place / self.tile
    }
}
