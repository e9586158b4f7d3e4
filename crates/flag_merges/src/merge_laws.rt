//! The law of merges by flags, a function that takes and gives nothing and whose contract is the law.

ghost use Rattle.std.specs.Prelude.{◌≡◌, Bool, List, map, not, Ok};
ghost use Rattle.cvl_base.specs.Packs.{pack_of};
ghost use Rattle.flag_merges.specs.Merges.{merge_of};

/// A merge is the inverse of two packs: packing it by the flags and by their negation gives both vectors back, and the two packs
/// of a vector merge to that vector.
pub fn merge_law<T>()
    ensures packs_back { (flags : List Bool) (xs ys zs : List T) → merge_of flags xs ys ≡ Ok zs →
        (pack_of zs flags ≡ Ok xs) × (pack_of zs (map not flags) ≡ Ok ys) }
    ensures merges_back { (flags : List Bool) (xs ys zs : List T) → pack_of zs flags ≡ Ok xs →
        pack_of zs (map not flags) ≡ Ok ys → merge_of flags xs ys ≡ Ok zs }
{}
