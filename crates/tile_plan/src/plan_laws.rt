//! Laws of plans, each a function that takes and gives nothing and whose contract is the law.

ghost use Rattle.std.specs.Prelude.{◌≡◌, ℕ, ◌<◌, ◌≤◌, Bool, List, take};
ghost use Rattle.cvl_base.specs.Folds.{fold_of};
ghost use Rattle.cvl_base.specs.SegmentMonoid.{seg_unit, seg_join};
ghost use Rattle.cvl_base.specs.TileSums.{upto};
ghost use Rattle.tile_plan.specs.Ranges.{tile_count, range_of, IsPartition, IsCutBy};

use cvl_base::Monoid;

/// The ranges of a plan's tiles are a partition of the list's places, in order.
pub fn range_law()
    ensures { (len tile : ℕ) → 1 ≤ tile → IsPartition len (tile_count len tile) (range_of len tile) }
{}

/// The sum of the tiles up to and with a tile is the fold of the list's front that ends where the tile's range ends: for each
/// monoid, and each list of items that a plan cuts into tiles.
#[tactic(auto, using(crate::proofs::Cut::front_is))]
pub fn plan_law<M: Monoid>()
    ensures { (len tile : ℕ) (xs : List (Bool × M.Item)) (tiles : List (List (Bool × M.Item))) →
        1 ≤ tile → IsCutBy len tile xs tiles → (t : ℕ) → t < tile_count len tile →
        upto M.join M.unit tiles t
        ≡ fold_of (seg_join M.join) (seg_unit M.unit) (take (range_of len tile t).1 xs) }
{}

/// Worked values: five elements in tiles of two, and no element in tiles of four.
pub fn range_values()
    ensures count { tile_count 5 2 ≡ 3 }
    ensures first { range_of 5 2 0 ≡ (0, 2) }
    ensures middle { range_of 5 2 1 ≡ (2, 4) }
    ensures last { range_of 5 2 2 ≡ (4, 5) }
    ensures none { tile_count 0 4 ≡ 0 }
    ensures exact { tile_count 8 4 ≡ 2 }
{}
