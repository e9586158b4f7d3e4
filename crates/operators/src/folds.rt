//! The laws of folds and scans, for code that is generic over its monoid.

ghost use Rattle.std.specs.Prelude.{◌≡◌, ℕ, ◌+◌, ◌<◌, List, [], ◌∷◌, ◌++◌, length, take, IsTrue, slice_get, slice_index_or};
ghost use Rattle.std.specs.List.{AllPass};
ghost use Rattle.operators.specs.Folds.{fold_of, scan_of};

use crate::monoid::Monoid;

/// What a fold of no elements is, of one element more, and of two lists one after the other.
///
/// `front` is the step of a loop that has folded the first `k` elements. The call does nothing; its
/// contract names the laws.
pub fn know_folds<M: Monoid>()
    ensures of_none { fold_of M.join M.unit [] ≡ M.unit }
    ensures one_more { (xs : List M.Item) (x : M.Item) →
        fold_of M.join M.unit (xs ++ x ∷ []) ≡ M.join (fold_of M.join M.unit xs) x }
    ensures front { (xs : List M.Item) (k : ℕ) (other : M.Item) → k < length xs →
        fold_of M.join M.unit (take (k + 1) xs)
        ≡ M.join (fold_of M.join M.unit (take k xs)) (slice_index_or xs k other) }
    ensures item { (xs : List M.Item) → AllPass M.is_item xs →
        IsTrue (M.is_item (fold_of M.join M.unit xs)) }
    ensures appended { (xs ys : List M.Item) → AllPass M.is_item xs → AllPass M.is_item ys →
        fold_of M.join M.unit (xs ++ ys) ≡ M.join (fold_of M.join M.unit xs) (fold_of M.join M.unit ys) }
{}

/// How long a scan is, what each of its elements is, and how it grows with its list.
///
/// `front` is the step of a loop that has scanned the first `k` elements. The call does nothing;
/// its contract names the laws.
pub fn know_scans<M: Monoid>()
    ensures as_long { (xs : List M.Item) → length (scan_of M.join M.unit xs) ≡ length xs }
    ensures element { (xs : List M.Item) (k : ℕ) → k < length xs →
        slice_get (scan_of M.join M.unit xs) k ≡ Some (fold_of M.join M.unit (take k xs)) }
    ensures one_more { (xs : List M.Item) (x : M.Item) →
        scan_of M.join M.unit (xs ++ x ∷ []) ≡ scan_of M.join M.unit xs ++ fold_of M.join M.unit xs ∷ [] }
    ensures front { (xs : List M.Item) (k : ℕ) → k < length xs →
        scan_of M.join M.unit (take (k + 1) xs)
        ≡ scan_of M.join M.unit (take k xs) ++ fold_of M.join M.unit (take k xs) ∷ [] }
{}
