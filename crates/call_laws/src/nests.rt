//! The law of nests, a function that takes and gives nothing and whose contract is the law.

ghost use Rattle.std.specs.Prelude.{◌≡◌, ◌≢◌, ◌↔◌, ℕ, List, length, sum, IsOk};
ghost use Rattle.cvl_base.specs.declared.fault.FaultNo.TheVariants as no;
ghost use Rattle.cvl_base.specs.Faults.{fault};
ghost use Rattle.cvl_base.specs.Nests.{IsNest, nest};

/// A nest is the one list of lists with the given lengths whose concatenation is the given list. It exists exactly if the lengths
/// add up to the length of the list; else there is no such list of lists, and the fault is `LengthMismatch`.
pub fn nest_law<T>()
    ensures meaning { (lengths : List ℕ) (xs : List T) (lists : List (List T))
        → (nest lengths xs ≡ Ok lists) ↔ IsNest lengths xs lists }
    ensures exists { (lengths : List ℕ) (xs : List T) → sum lengths ≡ length xs → IsOk (nest lengths xs) }
    ensures mismatch { (lengths : List ℕ) (xs : List T) → sum lengths ≢ length xs
        → nest lengths xs ≡ Err (fault no.LengthMismatch) }
    ensures none { (lengths : List ℕ) (xs : List T) (lists : List (List T)) → sum lengths ≢ length xs
        → ¬ (IsNest lengths xs lists) }
{}
