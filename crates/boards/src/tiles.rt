//! The tiles of a scan, as a board sees them.

ghost use Rattle.std.specs.Prelude.{◌≡◌, ◌<◌, ◌≤◌, Bool, List, length, slice_index_or};
ghost use Rattle.std.specs.List.{AllPass};
ghost use Rattle.cvl_base.specs.Limits.{most_elements};
ghost use Rattle.cvl_base.specs.SegmentMonoid.{is_seg_item, seg_unit};

use cvl_base::{Monoid, Packed};

/// The tiles of a scan: how many there are, and what the elements of each join to.
pub trait Tiles: Drop {
    /// The monoid whose elements the tiles hold.
    type M: Packed;

    ghost sums: { Self → List (Bool × Self.M.Item) };

    /// The number of tiles, at most 4,194,304, whose sums are items.
    fn count(&self) -> u32
        ensures count { result ≡ length (sums self.now) }
        ensures few { length (sums self.now) ≤ most_elements }
        ensures items { AllPass (is_seg_item Self.M.is_item) (sums self.now) };

    /// The sum of tile `t` under `Seg`: whether a segment starts in it, and what its elements join to since the last start.
    /// It takes no memory.
    fn sum(&self, t: u32) -> (bool, <Self::M as Monoid>::Item)
        requires { t < length (sums self.now) }
        ensures { result ≡ slice_index_or (sums self.now) t (seg_unit Self.M.unit) };
}
