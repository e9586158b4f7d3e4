//! Checked sums by steps.

ghost use Rattle.std.specs.Prelude.{◌≡◌, ◌≤◌, ℕ, ℤ, List, Ok, Err, Some, length, slice_get};
ghost use Rattle.std.specs.List.{AllPass};
ghost use Rattle.cvl_base.specs.CheckedSums.{checked_reduce_of, checked_scan_of};
ghost use Rattle.cvl_base.specs.declared.fault.Fault.{Fault};
ghost use Rattle.cvl_base.specs.ItemWords.{is_number};
ghost use Rattle.cvl_base.specs.Limits.{most_places};
ghost use Rattle.call_table.specs.declared.families.IntMonoid.TheVariants.{Add};
ghost use Rattle.part_calls.specs.Limits.{few_enough};
ghost use Rattle.part_calls.specs.Sums.{checked_scan_after};
ghost use Rattle.part_records.specs.Carries.{carried_total_of};
ghost use Rattle.step_laws.specs.CheckedSteps.{Carries, LooksAtSums, ScansSums, Totals};
ghost use Rattle.step_laws.specs.Looks.{Fails};
ghost use Rattle.step_laws.specs.Parts.{HaveRooms, Part, elements_of, room_of, told_of};
ghost use Rattle.step_laws.specs.Steps.{InParts};
ghost use Rattle.c_calls.specs.Calls.{in_limit};
ghost use Rattle.c_calls.specs.Numbers.{int_monoid};
ghost use Rattle.c_calls.specs.Told.{RoomTold, Told, done};
ghost use Rattle.c_calls.specs.declared.status.CvlStatus.{CvlStatus};

use call_laws::checked_sums::carry_fits;

/// A checked scan by steps: each part adds up its integers in 64 bits; once, the sums before each part are added up, in 64 bits
/// too; each part looks at its sums after what stands before it, and if no part finds one that does not fit 32 bits, each scans
/// its integers by sums that wrap. Then no sum of the whole is outside 32 bits, and the room is the checked scan of the whole. If
/// a part finds a sum that does not fit, the call has a fault.
pub fn checked_scans_by_steps()
    ensures scanned { (op : ℕ) (start summed carried looked end : List (Part ℤ ℤ ℤ)) → int_monoid op ≡ Ok Add →
        AllPass is_number (elements_of start) → length (elements_of start) ≤ most_places → HaveRooms start →
        InParts Totals start summed → Carries summed carried → InParts LooksAtSums carried looked →
        InParts (ScansSums op) looked end →
        RoomTold (in_limit (elements_of start) (checked_scan_of (elements_of start))) done (room_of start) (room_of end) }
    ensures faults { (start summed carried : List (Part ℤ ℤ ℤ)) (k : ℕ) (own : Part ℤ ℤ ℤ) →
        AllPass is_number (elements_of start) → length (elements_of start) ≤ most_places →
        InParts Totals start summed → Carries summed carried → slice_get carried k ≡ Some own →
        Fails (few_enough (length own.elements) (checked_scan_after own.before own.elements)) →
        (f : Fault) × (in_limit (elements_of start) (checked_scan_of (elements_of start)) ≡ Err f) }
{
    carry_fits();
}

/// A checked reduce by steps: each part adds up its integers in 64 bits, and then, once, the sums are added up, which has to fit
/// 32 bits. The answer is the call's, also where it is the fault.
pub fn checked_reduces_by_steps()
    ensures { (start summed : List (Part ℤ ℤ ℤ)) (status : CvlStatus) (before now : ℤ) →
        AllPass is_number (elements_of start) → length (elements_of start) ≤ most_places →
        InParts Totals start summed → Told (carried_total_of (told_of summed)) status before now →
        Told (in_limit (elements_of start) (checked_reduce_of (elements_of start))) status before now }
{
    carry_fits();
}
