//! Laws of first senders, each a function that takes and gives nothing and whose contract is the law.

ghost use Rattle.std.specs.Prelude.{◌≡◌, ◌≢◌, ◌↔◌, ◌+◌, ◌<◌, ◌++◌, ℕ, ℤ, pos, negsuc, Option, List, count_by, map, slice_get};
ghost use Rattle.call_laws.specs.Senders.{found_senders, named_places};
ghost use Rattle.cvl_base.specs.Permutes.{all_destinations, back_of, first_fault};
ghost use Rattle.first_senders.specs.FirstSenders.{first_sender, first_senders, wrong_in};
ghost use Rattle.permute_walks.specs.Senders.{count_destinations, is_between};

/// The first sender of a place has this place as its destination, and no place before it has; if there is none, no place has. So
/// no two places have one sender.
pub fn first_sender_law()
    ensures names { (destinations : List (Option ℤ)) (d k : ℕ) → first_sender destinations d ≡ pos k →
        slice_get destinations k ≡ Some (Some (pos d)) }
    ensures least { (destinations : List (Option ℤ)) (d k j : ℕ) → first_sender destinations d ≡ pos k → j < k →
        slice_get destinations j ≢ Some (Some (pos d)) }
    ensures none { (destinations : List (Option ℤ)) (d j : ℕ) → first_sender destinations d ≡ negsuc 0 →
        slice_get destinations j ≢ Some (Some (pos d)) }
    ensures apart { (destinations : List (Option ℤ)) (d e k : ℕ) → first_sender destinations d ≡ pos k →
        first_sender destinations e ≡ pos k → d ≡ e }
{}

/// A back permute of an index by its first senders keeps one of each: the places that are named, each once and in their order.
pub fn one_of_each_law()
    ensures { (index : List ℤ) (m : ℕ) → back_of index (found_senders (all_destinations index) m)
        ≡ Ok (map (λ d. pos d) (named_places (all_destinations index) m)) }
{}

/// The first senders of a range are those of its parts, in order, and as many places name one of the range as name one of its
/// parts. As many as take part name one of all places exactly if none has a fault.
pub fn first_senders_by_ranges()
    ensures ranges { (destinations : List (Option ℤ)) (low m n : ℕ) →
        first_senders destinations low (m + n) ≡ first_senders destinations low m ++ first_senders destinations (low + m) n }
    ensures named { (destinations : List (Option ℤ)) (low m n : ℕ) →
        count_by (is_between low (low + (m + n))) destinations
        ≡ count_by (is_between low (low + m)) destinations + count_by (is_between (low + m) (low + m + n)) destinations }
    ensures all_named { (destinations : List (Option ℤ)) (m : ℕ) →
        (count_by (is_between 0 m) destinations ≡ count_destinations destinations)
        ↔ (first_fault 0 (map (wrong_in m) destinations) ≡ None) }
{}
