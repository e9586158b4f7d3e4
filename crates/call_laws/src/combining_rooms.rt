//! The law of combining permutes and counts by blocks of their elements, as a function that takes and gives nothing and whose
//! contract is the law.

ghost use Rattle.std.specs.Prelude.{◌≡◌, ◌↔◌, ◌≤◌, ℕ, ℤ, pos, None, List, length, map, replicate};
ghost use Rattle.std.specs.List.{All, AllPass};
ghost use Rattle.call_laws.specs.InRooms.{own_room, with_rooms};
ghost use Rattle.combining_permutes.specs.CombiningPermutes.{combined, place_counts};
ghost use Rattle.cvl_base.specs.Integers.{sum_of};
ghost use Rattle.cvl_base.specs.Limits.{most_places};
ghost use Rattle.cvl_base.specs.Lists.{joined};
ghost use Rattle.permute_walks.specs.Indices.{first_outside};

use cvl_base::monoid::Monoid;

/// What stood in a room, joined with the rooms of all blocks in the order of the blocks, is what it is joined to with all
/// elements. The counts of all blocks add up to those of all indices. An index is outside exactly if one of a block is.
pub fn combining_by_blocks<M: Monoid>()
    ensures joined { (blocks : List (List (ℤ × M.Item))) (lowest : ℕ) (before : List M.Item) →
        All (AllPass (λ p. M.is_item p.1)) blocks → AllPass M.is_item before →
        combined M.join (joined blocks) lowest before
        ≡ with_rooms M.join before (map (own_room M.join M.unit lowest (length before)) blocks) }
    ensures counted { (blocks : List (List ℤ)) (lowest places : ℕ) → length (joined blocks) ≤ most_places →
        place_counts (joined blocks) lowest places
        ≡ with_rooms sum_of (replicate places (pos 0)) (map (λ index. place_counts index lowest places) blocks) }
    ensures outside { (blocks : List (List ℤ)) (places : ℕ) →
        (first_outside 0 places (joined blocks) ≡ None) ↔ All (λ index. first_outside 0 places index ≡ None) blocks }
{}
