//! Descriptors by steps.

ghost use Rattle.std.specs.Prelude.{◌≡◌, ◌≢◌, ◌≤◌, ℕ, ℤ, List, Ok, Err, Some, length, slice_get, sum};
ghost use Rattle.cvl_base.specs.declared.fault.Fault.{Fault};
ghost use Rattle.cvl_base.specs.Limits.{most_places};
ghost use Rattle.part_records.specs.Totals.{total_within};
ghost use Rattle.step_laws.specs.LengthSteps.{Measures};
ghost use Rattle.step_laws.specs.Parts.{Part, elements_of, told_of};
ghost use Rattle.step_laws.specs.Steps.{InParts};
ghost use Rattle.c_calls.specs.Calls.{by_segments};
ghost use Rattle.c_calls.specs.Told.{Told, done};
ghost use Rattle.c_calls.specs.declared.status.CvlStatus.{CvlStatus};

use call_laws::descriptors::descriptor_in_parts;

/// A descriptor by steps: each part adds up its lengths, and then a step that is made once adds up the parts' totals. If neither
/// finds a fault, all numbers are lengths, and the sum of the totals is the total of all of them. If a part finds a fault, or the
/// totals are too long together, the call has a fault.
pub fn descriptors_by_steps()
    ensures added { (start measured : List (Part ℤ ℕ ℤ)) (before now : ℕ) → length (elements_of start) ≤ most_places →
        InParts Measures start measured → Told (total_within (told_of measured)) done before now →
        Told (by_segments (elements_of start) (λ lengths. Ok (sum lengths))) done before now }
    ensures faults { (start : List (Part ℤ ℕ ℤ)) (k : ℕ) (own : Part ℤ ℕ ℤ) (status : CvlStatus) (left : ℕ) →
        slice_get start k ≡ Some own → Told (by_segments own.elements (λ lengths. Ok (sum lengths))) status own.told left →
        status ≢ done →
        (f : Fault) × (by_segments (elements_of start) (λ lengths. Ok (sum lengths)) ≡ Err f) }
    ensures too_long { (start measured : List (Part ℤ ℕ ℤ)) (status : CvlStatus) (before now : ℕ) →
        InParts Measures start measured → Told (total_within (told_of measured)) status before now → status ≢ done →
        (f : Fault) × (by_segments (elements_of start) (λ lengths. Ok (sum lengths)) ≡ Err f) }
{
    descriptor_in_parts();
}
