//! Counts by steps.

ghost use Rattle.std.specs.Prelude.{◌≡◌, ◌≤◌, ℕ, ℤ, pos, List, Ok, length};
ghost use Rattle.c_calls.specs.Numbers.{int_monoid};
ghost use Rattle.call_table.specs.declared.families.IntMonoid.TheVariants.{Add};
ghost use Rattle.cvl_base.specs.Limits.{most_places};
ghost use Rattle.cvl_base.specs.Packs.{count_of};
ghost use Rattle.step_laws.specs.CountSteps.{Counts};
ghost use Rattle.step_laws.specs.Parts.{Part, elements_of, told_of};
ghost use Rattle.step_laws.specs.Steps.{InParts};
ghost use Rattle.c_calls.specs.Calls.{in_limit};
ghost use Rattle.c_calls.specs.Scans.{int_reduce_by};
ghost use Rattle.c_calls.specs.Told.{Told, done};
ghost use Rattle.flag_calls.specs.Flags.{flags_of};

/// A count by steps: each part counts its true flags, and then, once, the counts are added up by the operator `Add`, which does
/// not wrap.
pub fn counts_by_steps()
    ensures { (op : ℕ) (start counted : List (Part ℕ ℤ ℤ)) (before now : ℤ) → int_monoid op ≡ Ok Add →
        length (elements_of start) ≤ most_places →
        InParts Counts start counted → Told (int_reduce_by op (told_of counted)) done before now →
        Told (in_limit (elements_of start) (Ok (pos (count_of (flags_of (elements_of start)))))) done before now }
{}
