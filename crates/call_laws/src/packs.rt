//! Laws of pack and count, each a function that takes and gives nothing and whose contract is the law.

ghost use Rattle.std.specs.Prelude.{◌≡◌, ◌≢◌, ◌+◌, ℕ, Bool, List, [], ◌∷◌, ◌++◌, length, map, filter, sum, if◌then◌else◌};
ghost use Rattle.call_laws.specs.InParts.{in_two};
ghost use Rattle.cvl_base.specs.declared.fault.FaultNo.TheVariants as no;
ghost use Rattle.cvl_base.specs.Faults.{fault};
ghost use Rattle.cvl_base.specs.Packs.{count_of, pack_of};
ghost use Rattle.cvl_base.specs.SegmentedCalls.{seg_count_of};

/// A pack is the filter by the flags: by a test's flags it keeps what passes the test, in order; of one element more it keeps
/// that one too, last, if its flag is true; and it keeps as many elements as there are true flags.
pub fn pack_law<T>()
    ensures filter { (xs : List T) (test : T → Bool) → pack_of xs (map test xs) ≡ Ok (filter test xs) }
    ensures nothing { pack_of {X = T} [] [] ≡ Ok [] }
    ensures one_more { (xs : List T) (flags : List Bool) (kept : List T) (x : T) (flag : Bool) → pack_of xs flags ≡ Ok kept →
        pack_of (xs ++ x ∷ []) (flags ++ flag ∷ []) ≡ Ok (kept ++ (if flag then x ∷ [] else [])) }
    ensures counted { (xs : List T) (flags : List Bool) (kept : List T) → pack_of xs flags ≡ Ok kept →
        length kept ≡ count_of flags }
    ensures mismatch { (xs : List T) (flags : List Bool) → length xs ≢ length flags →
        pack_of xs flags ≡ Err (fault no.LengthMismatch) }
{}

/// A pack in two parts is the packs of the parts, and a count the sum of their counts. If the cut lies inside a segment, so are
/// the counts of segments, which are the packed lengths: its two counts are added.
pub fn pack_in_parts<T>()
    ensures pack { (xs ys : List T) (flags more : List Bool) → length xs ≡ length flags → length ys ≡ length more →
        pack_of (xs ++ ys) (flags ++ more) ≡ in_two (length xs) (pack_of xs flags) (pack_of ys more) }
    ensures count { (flags more : List Bool) → count_of (flags ++ more) ≡ count_of flags + count_of more }
    ensures segments { (flags more_flags : List Bool) (lengths more closed rest : List ℕ) (m n a b : ℕ) →
        sum lengths + m ≡ length flags → n + sum more ≡ length more_flags →
        seg_count_of flags (lengths ++ m ∷ []) ≡ Ok (closed ++ a ∷ []) → seg_count_of more_flags (n ∷ more) ≡ Ok (b ∷ rest) →
        seg_count_of (flags ++ more_flags) (lengths ++ (m + n) ∷ more) ≡ Ok (closed ++ (a + b) ∷ rest) }
{}
