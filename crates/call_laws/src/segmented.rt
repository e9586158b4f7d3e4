//! Laws of segmented calls, each a function that takes and gives nothing and whose contract is the law.

ghost use Rattle.std.specs.Prelude.{◌≡◌, ◌↔◌, ℕ, ℤ, pos, Bool, Result, List, [], ◌∷◌, ◌++◌, length, map};
ghost use Rattle.std.specs.List.{zip};
ghost use Rattle.std.specs.Result.{result_map_both};
ghost use Rattle.cvl_base.specs.declared.fault.Fault.{Fault};
ghost use Rattle.call_laws.specs.CutAgain.{IsCutInto};
ghost use Rattle.cvl_base.specs.Distributes.{distribute_of, index_of};
ghost use Rattle.cvl_base.specs.Extracts.{extract_of, replace_of};
ghost use Rattle.cvl_base.specs.Folds.{fold_of, scan_of};
ghost use Rattle.cvl_base.specs.Lists.{joined};
ghost use Rattle.cvl_base.specs.Nests.{nest};
ghost use Rattle.cvl_base.specs.Packs.{count_of, pack_of};
ghost use Rattle.cvl_base.specs.Permutes.{back_of, default_of, select_of, simple_of};
ghost use Rattle.cvl_base.specs.Segmented.{end_to_end, moved, of_three, of_two, one_each};
ghost use Rattle.cvl_base.specs.SegmentedCalls.{seg_back_of, seg_count_of, seg_default_of, seg_distribute_of, seg_extract_of};
ghost use Rattle.cvl_base.specs.SegmentedCalls.{seg_index_of, seg_pack_of, seg_reduce_of, seg_replace_of, seg_scan_of};
ghost use Rattle.cvl_base.specs.SegmentedCalls.{seg_select_of, seg_simple_of};

use cvl_base::monoid::Monoid;

/// A segmented call has results exactly if the flat call has one on each segment, and they are these, one for each. Its fault is
/// the flat fault of the first segment that has one, at its place in the whole.
pub fn segmented_call_law<S, R>()
    ensures results { (place : ℕ → ℕ → ℕ) (call : S → Result R Fault) (segments : List S) (results : List R) →
        (one_each place call (Ok segments) ≡ Ok results) ↔ (map call segments ≡ map (λ r. Ok r) results) }
    ensures first_fault { (place : ℕ → ℕ → ℕ) (call : S → Result R Fault) (good : List S) (bad : S) (others : List S)
        (results : List R) (f : Fault) →
        map call good ≡ map (λ r. Ok r) results → call bad ≡ Err f →
        one_each place call (Ok (good ++ bad ∷ others)) ≡ moved (place (length good)) (Err f) }
{}

/// The same for a call whose flat results are lists: they follow in order, and the lengths of the flat results cut the whole into
/// them again.
pub fn segmented_lists_law<S, T>()
    ensures results { (place : ℕ → ℕ → ℕ) (call : S → Result (List T) Fault) (segments : List S) (result : List T) →
        (end_to_end place call (Ok segments) ≡ Ok result)
        ↔ ((lists : List (List T)) × (map call segments ≡ map (λ r. Ok r) lists) × (result ≡ joined lists)) }
    ensures first_fault { (place : ℕ → ℕ → ℕ) (call : S → Result (List T) Fault) (good : List S) (bad : S) (others : List S)
        (lists : List (List T)) (f : Fault) →
        map call good ≡ map (λ r. Ok r) lists → call bad ≡ Err f →
        end_to_end place call (Ok (good ++ bad ∷ others)) ≡ moved (place (length good)) (Err f) }
    ensures cut_again { (place : ℕ → ℕ → ℕ) (call : S → Result (List T) Fault) (segments : List S) (lists : List (List T))
        (result : List T) →
        map call segments ≡ map (λ r. Ok r) lists →
        (end_to_end place call (Ok segments) ≡ Ok result) ↔ (nest (map length lists) result ≡ Ok lists) }
{}

/// The result of a segmented scan is the one list that the same lengths cut into the scans of the segments.
pub fn segmented_scan_nests<M: Monoid>()
    ensures { (xs ys : List M.Item) (lengths : List ℕ) (lists : List (List M.Item)) → nest lengths xs ≡ Ok lists →
        (seg_scan_of M.join M.unit xs lengths ≡ Ok ys) ↔ (nest lengths ys ≡ Ok (map (scan_of M.join M.unit) lists)) }
{}

/// The same lengths cut the result of a segmented distribute, index or replace, and the packed lengths that of a segmented
/// pack, into the flat results of the segments.
pub fn result_cut_again<T>()
    ensures distribute { (values result : List T) (lengths : List ℕ) → seg_distribute_of values lengths ≡ Ok result →
        IsCutInto (of_two (λ value n. distribute_of value (pos n))) (zip values lengths) lengths result }
    ensures index { (inits strides result : List ℤ) (lengths : List ℕ) → seg_index_of inits strides lengths ≡ Ok result →
        IsCutInto (of_three (λ init stride n. index_of init stride (pos n))) (zip (zip inits strides) lengths) lengths result }
    ensures replace { (xs values result : List T) (index : List ℤ) (lengths : List ℕ) (lists : List (List T)) →
        nest lengths xs ≡ Ok lists → seg_replace_of xs index values lengths ≡ Ok result →
        IsCutInto (of_three replace_of) (zip (zip lists index) values) lengths result }
    ensures pack { (xs result : List T) (flags : List Bool) (lengths counts : List ℕ) (lists : List (List T))
        (flag_lists : List (List Bool)) →
        nest lengths xs ≡ Ok lists → nest lengths flags ≡ Ok flag_lists →
        seg_count_of flags lengths ≡ Ok counts → seg_pack_of xs flags lengths ≡ Ok result →
        IsCutInto (of_two pack_of) (zip lists flag_lists) counts result }
{}

/// The lengths of the source cut the result of a segmented simple permute into the flat results of the segments; those of
/// the index that of a back permute; the counts of the flags that of a select; those of the defaults that of a default.
pub fn permute_cut_again<T>()
    ensures simple { (source result : List T) (index : List ℤ) (lengths : List ℕ) (sources : List (List T))
        (indices : List (List ℤ)) →
        nest lengths source ≡ Ok sources → nest lengths index ≡ Ok indices →
        seg_simple_of source index lengths ≡ Ok result →
        IsCutInto (of_two simple_of) (zip sources indices) lengths result }
    ensures back { (source result : List T) (index : List ℤ) (source_lengths index_lengths : List ℕ) (sources : List (List T))
        (indices : List (List ℤ)) →
        nest source_lengths source ≡ Ok sources → nest index_lengths index ≡ Ok indices →
        seg_back_of source index source_lengths index_lengths ≡ Ok result →
        IsCutInto (of_two back_of) (zip sources indices) index_lengths result }
    ensures select { (source result : List T) (index : List ℤ) (flags : List Bool) (lengths counts : List ℕ)
        (sources : List (List T)) (indices : List (List ℤ)) (flag_lists : List (List Bool)) →
        nest lengths source ≡ Ok sources → nest lengths index ≡ Ok indices → nest lengths flags ≡ Ok flag_lists →
        seg_count_of flags lengths ≡ Ok counts → seg_select_of source index flags lengths ≡ Ok result →
        IsCutInto (of_three select_of) (zip (zip sources indices) flag_lists) counts result }
    ensures default_into { (source defaults result : List T) (index : List ℤ) (source_lengths default_lengths : List ℕ)
        (sources default_lists : List (List T)) (indices : List (List ℤ)) →
        nest source_lengths source ≡ Ok sources → nest source_lengths index ≡ Ok indices
        → nest default_lengths defaults ≡ Ok default_lists →
        seg_default_of source index defaults source_lengths default_lengths ≡ Ok result →
        IsCutInto (of_three default_of) (zip (zip sources indices) default_lists) default_lengths result }
{}

/// On one segment a segmented scan or reduce is the flat one.
pub fn one_segment_scanned<M: Monoid>()
    ensures scan { (xs : List M.Item) →
        seg_scan_of M.join M.unit xs (length xs ∷ []) ≡ Ok (scan_of M.join M.unit xs) }
    ensures reduce { (xs : List M.Item) →
        seg_reduce_of M.join M.unit xs (length xs ∷ []) ≡ Ok (fold_of M.join M.unit xs ∷ []) }
{}

/// On one segment a segmented permute, pack or count is the flat one, its faults too.
pub fn one_segment_moved<T>()
    ensures simple { (source : List T) (index : List ℤ) →
        seg_simple_of source index (length source ∷ []) ≡ simple_of source index }
    ensures back { (source : List T) (index : List ℤ) →
        seg_back_of source index (length source ∷ []) (length index ∷ []) ≡ back_of source index }
    ensures select { (source : List T) (index : List ℤ) (flags : List Bool) →
        seg_select_of source index flags (length source ∷ []) ≡ select_of source index flags }
    ensures default_into { (source : List T) (index : List ℤ) (defaults : List T) →
        seg_default_of source index defaults (length source ∷ []) (length defaults ∷ []) ≡ default_of source index defaults }
    ensures pack { (xs : List T) (flags : List Bool) →
        seg_pack_of xs flags (length xs ∷ []) ≡ pack_of xs flags }
    ensures count { (flags : List Bool) → seg_count_of flags (length flags ∷ []) ≡ Ok (count_of flags ∷ []) }
{}

/// On one segment a segmented distribute or index is the flat one with the segment's length for its count, its fault too.
pub fn one_segment_made<T>()
    ensures distribute { (value : T) (n : ℕ) → seg_distribute_of (value ∷ []) (n ∷ []) ≡ distribute_of value (pos n) }
    ensures index { (init stride : ℤ) (n : ℕ) → seg_index_of (init ∷ []) (stride ∷ []) (n ∷ []) ≡ index_of init stride (pos n) }
{}

/// On one segment a segmented extract or replace is the flat one, its fault too: the extract gives the one element in a
/// list.
pub fn one_segment_changed<T>()
    ensures extract { (xs : List T) (index : ℤ) →
        seg_extract_of xs (index ∷ []) (length xs ∷ []) ≡ result_map_both (λ x. x ∷ []) (λ f. f) (extract_of xs index) }
    ensures replace { (xs : List T) (index : ℤ) (value : T) →
        seg_replace_of xs (index ∷ []) (value ∷ []) (length xs ∷ []) ≡ replace_of xs index value }
{}
