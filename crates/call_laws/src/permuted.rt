//! Laws of permutes, each a function that takes and gives nothing and whose contract is the law.

ghost use Rattle.std.specs.Prelude.{◌≡◌, ◌≢◌, ◌↔◌, ◌<◌, ℕ, ℤ, pos, Bool, false, true, Option, List, length, slice_get};
ghost use Rattle.cvl_base.specs.declared.fault.FaultNo.TheVariants as no;
ghost use Rattle.cvl_base.specs.Faults.{fault, fault_at};
ghost use Rattle.cvl_base.specs.Packs.{count_of};
ghost use Rattle.call_laws.specs.Permuted.{AreOnce, AreOnceFlagged, AreWithin, AreWithinFlagged, IsBackPermute, IsDefaultPermute};
ghost use Rattle.call_laws.specs.Permuted.{IsGoodBefore, IsSelectPermute, IsSimplePermute};
ghost use Rattle.cvl_base.specs.Permutes.{back_of, default_of, first_fault, is_place, select_of, simple_of, wrongs};

/// A simple permute gives the one vector in which element k of the source stands at the index of k, and gives it exactly if the
/// indices are the places of the source, each once. So each place of the result is the index of some place, and a back permute of
/// the result by the same index gives the source again.
pub fn simple_permute_law<T>()
    ensures meaning { (source : List T) (index : List ℤ) (result : List T) →
        (simple_of source index ≡ Ok result) ↔ IsSimplePermute source index result }
    ensures onto { (source : List T) (index : List ℤ) (result : List T) → simple_of source index ≡ Ok result →
        (d : ℕ) → d < length result → (k : ℕ) × (slice_get index k ≡ Some (pos d)) }
    ensures back_again { (source : List T) (index : List ℤ) (result : List T) → simple_of source index ≡ Ok result →
        back_of result index ≡ Ok source }
{}

/// A back permute gives the one vector that has at each place the source's element at the place's index.
pub fn back_permute_law<T>()
    ensures { (source : List T) (index : List ℤ) (result : List T) →
        (back_of source index ≡ Ok result) ↔ IsBackPermute source index result }
{}

/// A select permute gives the one vector, as long as there are true flags, in which the elements whose flag is true stand at
/// their indices, and gives it exactly if these indices are its places, each once.
pub fn select_permute_law<T>()
    ensures { (source : List T) (index : List ℤ) (flags : List Bool) (result : List T) →
        (select_of source index flags ≡ Ok result) ↔ IsSelectPermute source index flags result }
{}

/// A default permute gives the one vector, as long as the defaults, in which each element stands at its index, and the default
/// where no index points; it gives it exactly if the indices are places of the defaults, none of them twice.
pub fn default_permute_law<T>()
    ensures { (source : List T) (index : List ℤ) (defaults result : List T) →
        (default_of source index defaults ≡ Ok result) ↔ IsDefaultPermute source index defaults result }
{}

/// The fault of simple, select and default permutes is that of the first bad place: one whose destination lies outside the
/// result, or else is that of an earlier place.
pub fn first_bad_place_law()
    ensures none { (m : ℕ) (destinations : List (Option ℤ)) → IsGoodBefore m destinations (length destinations) →
        first_fault 0 (wrongs m destinations) ≡ None }
    ensures outside { (m : ℕ) (destinations : List (Option ℤ)) (k : ℕ) (i : ℤ) → IsGoodBefore m destinations k →
        slice_get destinations k ≡ Some (Some i) → is_place m i ≡ false →
        first_fault 0 (wrongs m destinations) ≡ Some (fault_at no.IndexOutOfRange k) }
    ensures again { (m : ℕ) (destinations : List (Option ℤ)) (j k : ℕ) (i : ℤ) → IsGoodBefore m destinations k →
        j < k → slice_get destinations j ≡ Some (Some i) → slice_get destinations k ≡ Some (Some i) → is_place m i ≡ true →
        first_fault 0 (wrongs m destinations) ≡ Some (fault_at no.IndexRepeated k) }
{}

/// The faults of a simple permute. If there are not as many indices as elements, it is `LengthMismatch`. Else, if the indices
/// before place k are places of the result and no two are the same, an index at k that is no place of the result is
/// `IndexOutOfRange` at k, and one that an earlier place has too is `IndexRepeated` at k.
pub fn simple_fault_law<T>()
    ensures mismatch { (source : List T) (index : List ℤ) → length source ≢ length index →
        simple_of source index ≡ Err (fault no.LengthMismatch) }
    ensures outside { (source : List T) (index : List ℤ) (k : ℕ) (i : ℤ) → length source ≡ length index →
        AreWithin (length index) index k → AreOnce index k →
        slice_get index k ≡ Some i → is_place (length index) i ≡ false →
        simple_of source index ≡ Err (fault_at no.IndexOutOfRange k) }
    ensures again { (source : List T) (index : List ℤ) (g k : ℕ) (i : ℤ) → length source ≡ length index →
        AreWithin (length index) index k → AreOnce index k →
        g < k → slice_get index g ≡ Some i → slice_get index k ≡ Some i →
        simple_of source index ≡ Err (fault_at no.IndexRepeated k) }
{}

/// The faults of a select permute. If there are not as many indices as elements, or flags as indices, it is `LengthMismatch`.
/// Else only the places whose flag is true count: if their indices before place k are places of the result and no two are the
/// same, an index at k that is no place of the result is `IndexOutOfRange` at k, and one that an earlier of these places has too
/// is `IndexRepeated` at k.
pub fn select_fault_law<T>()
    ensures index_mismatch { (source : List T) (index : List ℤ) (flags : List Bool) → length source ≢ length index →
        select_of source index flags ≡ Err (fault no.LengthMismatch) }
    ensures flag_mismatch { (source : List T) (index : List ℤ) (flags : List Bool) → length index ≢ length flags →
        select_of source index flags ≡ Err (fault no.LengthMismatch) }
    ensures outside { (source : List T) (index : List ℤ) (flags : List Bool) (k : ℕ) (i : ℤ) →
        length source ≡ length index → length index ≡ length flags →
        AreWithinFlagged (count_of flags) index flags k → AreOnceFlagged index flags k →
        slice_get flags k ≡ Some true → slice_get index k ≡ Some i → is_place (count_of flags) i ≡ false →
        select_of source index flags ≡ Err (fault_at no.IndexOutOfRange k) }
    ensures again { (source : List T) (index : List ℤ) (flags : List Bool) (g k : ℕ) (i : ℤ) →
        length source ≡ length index → length index ≡ length flags →
        AreWithinFlagged (count_of flags) index flags k → AreOnceFlagged index flags k →
        g < k → slice_get flags g ≡ Some true → slice_get flags k ≡ Some true →
        slice_get index g ≡ Some i → slice_get index k ≡ Some i →
        select_of source index flags ≡ Err (fault_at no.IndexRepeated k) }
{}

/// The faults of a default permute: those of a simple permute, but the result is as long as the defaults.
pub fn default_fault_law<T>()
    ensures mismatch { (source : List T) (index : List ℤ) (defaults : List T) → length source ≢ length index →
        default_of source index defaults ≡ Err (fault no.LengthMismatch) }
    ensures outside { (source : List T) (index : List ℤ) (defaults : List T) (k : ℕ) (i : ℤ) → length source ≡ length index →
        AreWithin (length defaults) index k → AreOnce index k →
        slice_get index k ≡ Some i → is_place (length defaults) i ≡ false →
        default_of source index defaults ≡ Err (fault_at no.IndexOutOfRange k) }
    ensures again { (source : List T) (index : List ℤ) (defaults : List T) (g k : ℕ) (i : ℤ) → length source ≡ length index →
        AreWithin (length defaults) index k → AreOnce index k →
        g < k → slice_get index g ≡ Some i → slice_get index k ≡ Some i →
        default_of source index defaults ≡ Err (fault_at no.IndexRepeated k) }
{}

/// The fault of a back permute is that of the first index that is no place of the source: `IndexOutOfRange` there.
pub fn back_fault_law<T>()
    ensures { (source : List T) (index : List ℤ) (k : ℕ) (i : ℤ) →
        AreWithin (length source) index k →
        slice_get index k ≡ Some i → is_place (length source) i ≡ false →
        back_of source index ≡ Err (fault_at no.IndexOutOfRange k) }
{}
