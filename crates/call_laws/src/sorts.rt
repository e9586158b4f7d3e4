//! Laws of sorts over ranks, each a function that takes and gives nothing and whose contract is the law.

ghost use Rattle.std.specs.Prelude.{◌≡◌, ◌<◌, ◌++◌, ◌∷◌, [], ℕ, ℤ, pos, List, count_by, length, map, slice_index_or};
ghost use Rattle.std.specs.List.{enumerate_from};
ghost use Rattle.operators.specs.Lists.{joined};
ghost use Rattle.orders.specs.Orders.{by_key, sorted_of};
ghost use Rattle.call_laws.specs.SortedOverRanks.{cut_at, cut_in_rank_order, goes_before, sorted_over_ranks, up_to};

/// Each rank gets its range of the stable sort of the whole: what stands there between the same two splitters, whatever these
/// are. So in order the ranks have the sort. The place with its key that stands at n in the order is a splitter before which n
/// keys go, so that each rank may get as many as it has room for.
pub fn sorts_over_ranks()
    ensures ranges { (parts : List (List ℤ)) (splitters : List (ℕ × ℤ)) →
        sorted_over_ranks splitters parts ≡ cut_at splitters (by_key (joined parts)) }
    ensures whole { (parts : List (List ℤ)) (splitters : List (ℕ × ℤ)) →
        joined (sorted_over_ranks splitters parts) ≡ by_key (joined parts) }
    ensures exact { (keys : List ℤ) (n : ℕ) → n < length keys →
        length (up_to (slice_index_or (by_key keys) n (0, pos 0)) (by_key keys)) ≡ n }
    ensures keys { (keys : List ℤ) → map (λ p. p.1) (by_key keys) ≡ sorted_of keys }
{}

/// A rank knows from counts where to cut: before the splitter at n in the order go its lesser keys, and of those that equal the
/// splitter's as many as are left of n after all lesser ones and the equal ones of the ranks before.
pub fn equal_keys_in_rank_order()
    ensures { (before own behind : List ℤ) (n : ℕ) (splitter : ℕ × ℤ) → n < length (before ++ (own ++ behind)) →
        splitter ≡ slice_index_or (by_key (before ++ (own ++ behind))) n (0, pos 0) →
        count_by (goes_before splitter) (enumerate_from (length before) own)
        ≡ cut_in_rank_order splitter.1 n (before ++ (own ++ behind)) before own }
{}

/// Two ranks with the keys 2 1 and 2 0, cut before the second of the keys 2.
pub fn sort_over_two_ranks()
    ensures { sorted_over_ranks ((2, pos 2) ∷ []) ((pos 2 ∷ pos 1 ∷ []) ∷ (pos 2 ∷ pos 0 ∷ []) ∷ [])
        ≡ ((3, pos 0) ∷ (1, pos 1) ∷ (0, pos 2) ∷ []) ∷ ((2, pos 2) ∷ []) ∷ [] }
{}
