//! Laws of checked sums in parts, each a function that takes and gives nothing and whose contract is the law.

ghost use Rattle.std.specs.Prelude.{◌≡◌, ◌+◌, ◌≤◌, ◌^◌, ◌+ℤ◌, ℕ, ℤ, pos, FitsSigned, List, [], ◌∷◌, ◌++◌, length, sum};
ghost use Rattle.std.specs.Int.{w64};
ghost use Rattle.std.specs.List.{AllPass};
ghost use Rattle.std.specs.Option.{ok_or};
ghost use Rattle.call_laws.specs.Carried.{Continues, StartsAnew, seg_reduce_after};
ghost use Rattle.call_laws.specs.CheckedParts.{checked_seg_reduce_after, checked_seg_scan_after};
ghost use Rattle.call_laws.specs.InParts.{in_two};
ghost use Rattle.cvl_base.specs.CheckedSums.{checked_reduce_of, checked_scan_of, checked_seg_reduce_of, checked_seg_scan_of};
ghost use Rattle.cvl_base.specs.CheckedSums.{fitting};
ghost use Rattle.cvl_base.specs.declared.fault.FaultNo.TheVariants as no;
ghost use Rattle.cvl_base.specs.Exact.{total_of};
ghost use Rattle.cvl_base.specs.Faults.{fault_at};
ghost use Rattle.cvl_base.specs.Folds.{fold_of};
ghost use Rattle.cvl_base.specs.ItemWords.{is_number};
ghost use Rattle.part_calls.specs.Sums.{all_fitting, checked_scan_after};

/// A checked scan in two parts: the second continues from the sum of the first, which need not fit 32 bits. A checked reduce adds
/// the parts' sums and then checks whether the whole fits.
pub fn checked_sums_in_parts()
    ensures scan { (carry : ℤ) (xs ys : List ℤ) →
        checked_scan_after carry (xs ++ ys) ≡ in_two (length xs) (checked_scan_after carry xs)
        (checked_scan_after (fold_of ◌+ℤ◌ carry xs) ys) }
    ensures scan_call { (xs : List ℤ) → checked_scan_after (pos 0) xs ≡ checked_scan_of xs }
    ensures reduce { (xs ys : List ℤ) →
        checked_reduce_of (xs ++ ys) ≡ ok_or (fitting (total_of xs +ℤ total_of ys)) (fault_at no.Overflow 0) }
{}

/// Checked scans and reduces by segments in two parts. If the cut lies inside a segment, the second part continues from the last
/// of the first part's reduces over whole numbers; after a cut between segments it starts anew. The fault of a reduce has the
/// segment's number.
pub fn checked_segments_in_parts()
    ensures scan { Continues (seg_reduce_after ◌+ℤ◌ (pos 0)) checked_seg_scan_after }
    ensures scan_between { StartsAnew checked_seg_scan_after checked_seg_scan_of }
    ensures scan_call { (xs : List ℤ) (lengths : List ℕ)
        → checked_seg_scan_after (pos 0) xs lengths ≡ checked_seg_scan_of xs lengths }
    ensures reduce { (carry out : ℤ) (xs ys closed : List ℤ) (lengths more : List ℕ) (m n : ℕ) →
        sum lengths + m ≡ length xs → n + sum more ≡ length ys →
        seg_reduce_after ◌+ℤ◌ (pos 0) carry xs (lengths ++ m ∷ []) ≡ Ok (closed ++ out ∷ []) →
        checked_seg_reduce_after carry (xs ++ ys) (lengths ++ (m + n) ∷ more)
        ≡ in_two (length closed) (all_fitting closed) (checked_seg_reduce_after out ys (n ∷ more)) }
    ensures reduce_between { (carry : ℤ) (xs ys : List ℤ) (k : ℕ) (lengths more : List ℕ) → sum (k ∷ lengths) ≡ length xs
        → sum more ≡ length ys →
        checked_seg_reduce_after carry (xs ++ ys) ((k ∷ lengths) ++ more)
        ≡ in_two (length (k ∷ lengths)) (checked_seg_reduce_after carry xs (k ∷ lengths)) (checked_seg_reduce_of ys more) }
    ensures reduce_call { (xs : List ℤ) (lengths : List ℕ)
        → checked_seg_reduce_after (pos 0) xs lengths ≡ checked_seg_reduce_of xs lengths }
{}

/// 64 bits hold the sum of up to 4,294,967,296 numbers of 32 bits.
pub fn carry_fits()
    ensures { (xs : List ℤ) → length xs ≤ 2 ^ 32 → AllPass is_number xs → FitsSigned w64 (total_of xs) }
{}
