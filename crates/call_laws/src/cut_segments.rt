//! Laws of segmented calls on vectors that are cut in two, between segments and inside one, each a function that takes and gives
//! nothing and whose contract is the law.

ghost use Rattle.std.specs.Prelude.{◌≡◌, ◌+◌, ℕ, Bool, nat_lt, Result, List, [], ◌∷◌, ◌++◌, length, sum, IsTrue};
ghost use Rattle.std.specs.List.{AllPass};
ghost use Rattle.call_laws.specs.Carried.{Continues, StartsAnew, seg_reduce_after, seg_scan_after};
ghost use Rattle.call_laws.specs.InParts.{in_two};
ghost use Rattle.cvl_base.specs.declared.fault.Fault.{Fault};
ghost use Rattle.cvl_base.specs.Gives.{after};
ghost use Rattle.cvl_base.specs.Nests.{nest};
ghost use Rattle.cvl_base.specs.SegmentMonoid.{seg_join};
ghost use Rattle.cvl_base.specs.Segmented.{at_segment, end_to_end, in_vector, one_each};
ghost use Rattle.cvl_base.specs.SegmentedCalls.{seg_reduce_of, seg_scan_of};

use cvl_base::monoid::Monoid;

/// A segmented call whose segments are cut into two lists is the call on the first ones and the call on the others. The place of
/// a fault of the others moves by the length of the first segments, or by their number if a call takes one index for each
/// segment.
pub fn segmented_in_parts<S, T>()
    ensures values { (call : S → Result T Fault) (first others : List S) (lengths more : List ℕ) → length first ≡ length lengths →
        one_each (in_vector (lengths ++ more)) call (Ok (first ++ others))
        ≡ in_two (sum lengths) (one_each (in_vector lengths) call (Ok first)) (one_each (in_vector more) call (Ok others)) }
    ensures lists { (call : S → Result (List T) Fault) (first others : List S) (lengths more : List ℕ)
        → length first ≡ length lengths →
        end_to_end (in_vector (lengths ++ more)) call (Ok (first ++ others))
        ≡ in_two (sum lengths) (end_to_end (in_vector lengths) call (Ok first)) (end_to_end (in_vector more) call (Ok others)) }
    ensures values_at_segments { (call : S → Result T Fault) (first others : List S) →
        one_each at_segment call (Ok (first ++ others))
        ≡ in_two (length first) (one_each at_segment call (Ok first)) (one_each at_segment call (Ok others)) }
    ensures lists_at_segments { (call : S → Result (List T) Fault) (first others : List S) →
        end_to_end at_segment call (Ok (first ++ others))
        ≡ in_two (length first) (end_to_end at_segment call (Ok first)) (end_to_end at_segment call (Ok others)) }
{}

/// The same for a segmented call on one vector, as a scan, a reduce or a count; the first lengths are those of the first part and
/// the others those of the second.
pub fn segmented_vector_in_parts<S, T>()
    ensures values { (call : List S → Result T Fault) (xs ys : List S) (lengths more : List ℕ) → sum lengths ≡ length xs
        → sum more ≡ length ys →
        one_each (in_vector (lengths ++ more)) call (nest (lengths ++ more) (xs ++ ys))
        ≡ in_two (length xs) (one_each (in_vector lengths) call (nest lengths xs))
        (one_each (in_vector more) call (nest more ys)) }
    ensures lists { (call : List S → Result (List T) Fault) (xs ys : List S) (lengths more : List ℕ) → sum lengths ≡ length xs
        → sum more ≡ length ys →
        end_to_end (in_vector (lengths ++ more)) call (nest (lengths ++ more) (xs ++ ys))
        ≡ in_two (length xs) (end_to_end (in_vector lengths) call (nest lengths xs))
        (end_to_end (in_vector more) call (nest more ys)) }
{}

/// A segmented call that gives lists may be cut inside a segment too, if the flat call on it is that on two parts, with m places
/// in the first: so are segmented back permutes, packs, distributes and indexes.
pub fn cut_segment_in_parts<S, T>()
    ensures { (call : S → Result (List T) Fault) (first : List S) (whole front back : S) (others : List S) (lengths more : List ℕ)
        (m n : ℕ) →
        length first ≡ length lengths → call whole ≡ in_two m (call front) (call back) →
        end_to_end (in_vector (lengths ++ (m + n) ∷ more)) call (Ok (first ++ whole ∷ others))
        ≡ in_two (sum lengths + m) (end_to_end (in_vector (lengths ++ m ∷ [])) call (Ok (first ++ front ∷ [])))
        (end_to_end (in_vector (n ∷ more)) call (Ok (back ∷ others))) }
{}

/// A segmented scan in two parts. A cut inside a segment leaves m of its elements to the first part and n to the second, either
/// of which may be none; the second part then continues from the last reduce of the first. After a cut between segments, with a
/// segment before it, the second part starts anew. A scan that continues from the unit is the call's.
pub fn segmented_scan_in_parts<M: Monoid>()
    ensures inside { Continues (seg_reduce_after M.join M.unit) (seg_scan_after M.join M.unit) }
    ensures between { StartsAnew (seg_scan_after M.join M.unit) (seg_scan_of M.join M.unit) }
    ensures call { (xs : List M.Item) (lengths : List ℕ) →
        seg_scan_after M.join M.unit M.unit xs lengths ≡ seg_scan_of M.join M.unit xs lengths }
{}

/// A segmented reduce in two parts. If the cut lies inside a segment, that segment's reduce is the second part's first one, which
/// continues from the last reduce of the first part; the reduces before that one are the first part's own.
pub fn segmented_reduce_in_parts<M: Monoid>()
    ensures inside { (carry out : M.Item) (xs ys closed : List M.Item) (lengths more : List ℕ) (m n : ℕ) →
        sum lengths + m ≡ length xs → n + sum more ≡ length ys →
        seg_reduce_after M.join M.unit carry xs (lengths ++ m ∷ []) ≡ Ok (closed ++ out ∷ []) →
        seg_reduce_after M.join M.unit carry (xs ++ ys) (lengths ++ (m + n) ∷ more)
        ≡ after closed (seg_reduce_after M.join M.unit out ys (n ∷ more)) }
    ensures between { StartsAnew (seg_reduce_after M.join M.unit) (seg_reduce_of M.join M.unit) }
    ensures call { (xs : List M.Item) (lengths : List ℕ) →
        seg_reduce_after M.join M.unit M.unit xs lengths ≡ seg_reduce_of M.join M.unit xs lengths }
{}

/// The carry out of a part is the carry into it joined with the part's own pair, by the monoid of segments: whether a segment
/// starts in the part after its first, which may continue, and the part's last reduce by itself. So the carries into all parts
/// are the scan of their pairs.
pub fn know_carries<M: Monoid>()
    ensures { (started : Bool) (carry last : M.Item) (xs closed : List M.Item) (n : ℕ) (lengths : List ℕ) →
        IsTrue (M.is_item carry) → AllPass M.is_item xs →
        seg_reduce_of M.join M.unit xs (n ∷ lengths) ≡ Ok (closed ++ last ∷ []) →
        (before : List M.Item) × (seg_reduce_after M.join M.unit carry xs (n ∷ lengths)
        ≡ Ok (before ++ (seg_join M.join (started, carry) (nat_lt 0 (length lengths), last)).1 ∷ [])) }
{}
