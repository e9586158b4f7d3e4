//! Laws of sessions, each a function that takes and gives nothing and whose contract is the law.

ghost use Rattle.std.specs.Prelude.{◌≡◌, ◌≢◌, ℕ, List, Some};
ghost use Rattle.cvl_base.specs.declared.operation.Op.{Op};
ghost use Rattle.cvl_base.specs.declared.value.Value.{Value};
ghost use Rattle.vector_handles.specs.declared.input.Input.{Input};
ghost use Rattle.vector_handles.specs.CallValues.{HasNamedKind, HaveNamedKinds};
ghost use Rattle.vector_handles.specs.Families.{ArgumentAt};
ghost use Rattle.bound_names.specs.Names.{BindsName, Entries, KeepsOthers, bind_both, value_at};

use cvl_base::Memory;

/// A binding changes only its name: from then on the name has the value, and every other name keeps what it had.
pub fn binding_law<A: Memory>()
    ensures bound { (names : Entries A) (name : List ℕ) (v : Value A) → BindsName names name v }
    ensures others { (names : Entries A) (name : List ℕ) (v : Value A) → KeepsOthers names name v }
{}

/// A binding of two names changes only these: if they differ, each has its own value from then on; the second has its value in
/// any case; every other name keeps what it had.
pub fn both_binding_law<A: Memory>()
    ensures first { (names : Entries A) (first second : List ℕ) (both : Value A × Value A) → first ≢ second →
        value_at (bind_both names first second both) first ≡ Some both.0 }
    ensures second { (names : Entries A) (first second : List ℕ) (both : Value A × Value A) →
        value_at (bind_both names first second both) second ≡ Some both.1 }
    ensures others { (names : Entries A) (first second other : List ℕ) (both : Value A × Value A) →
        other ≢ first → other ≢ second → value_at (bind_both names first second both) other ≡ value_at names other }
{}

/// The value of a call has the kind that the table of calls names as its result; if a call gives two, each has the kind at its
/// place.
pub fn result_kind_law<A: Memory>()
    ensures one { (inputs : List (Input A)) (op : Op) (arg : ArgumentAt A) → HasNamedKind inputs op arg }
    ensures two { (inputs : List (Input A)) (op : Op) (arg : ArgumentAt A) → HaveNamedKinds inputs op arg }
{}
