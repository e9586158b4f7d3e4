//! How scans and reduces relate, as a function that takes and gives nothing and whose contract is the law.

ghost use Rattle.std.specs.Prelude.{◌≡◌, List, [], ◌∷◌, ◌++◌, length, map, slice_get};
ghost use Rattle.std.specs.List.{All, AllPass};
ghost use Rattle.cvl_base.specs.Folds.{fold_of, scan_of};
ghost use Rattle.cvl_base.specs.Lists.{joined};
ghost use Rattle.call_laws.specs.InParts.{scans_after};

use cvl_base::monoid::Monoid;

/// A reduce is the scan's last element, joined with the vector's last element, which the scan leaves out.
pub fn know_reduces<M: Monoid>()
    ensures { (xs : List M.Item) (x before : M.Item) →
        slice_get (scan_of M.join M.unit (xs ++ x ∷ [])) (length xs) ≡ Some before →
        fold_of M.join M.unit (xs ++ x ∷ []) ≡ M.join before x }
{}

/// A scan in parts: the scan of a vector is that of each of its parts after what stands before the part, in order, and what
/// stands before each part is the scan of the parts' reduces.
pub fn know_scans_in_parts<M: Monoid>()
    ensures { (parts : List (List M.Item)) → All (AllPass M.is_item) parts →
        scan_of M.join M.unit (joined parts)
        ≡ joined (scans_after M.join (scan_of M.join M.unit (map (fold_of M.join M.unit) parts)) parts) }
{}

/// A reduce in parts: the reduce of a vector is that of its parts' reduces.
pub fn know_reduces_in_parts<M: Monoid>()
    ensures { (parts : List (List M.Item)) → All (AllPass M.is_item) parts →
        fold_of M.join M.unit (joined parts) ≡ fold_of M.join M.unit (map (fold_of M.join M.unit) parts) }
{}
