//! The laws of making a descriptor, each a function that takes and gives nothing and whose contract is the law.

ghost use Rattle.std.specs.Prelude.{◌≡◌, ◌↔◌, ◌<◌, ◌≤◌, ℕ, ℤ, pos, List, ◌++◌, length, map, sum};
ghost use Rattle.call_laws.specs.InParts.{descriptor_in_two};
ghost use Rattle.cvl_base.specs.declared.fault.FaultNo.TheVariants as no;
ghost use Rattle.cvl_base.specs.Descriptors.{AreLengths, IsFirstNegative, descriptor_of, descriptor_within};
ghost use Rattle.cvl_base.specs.Faults.{fault, fault_at};
ghost use Rattle.cvl_base.specs.Limits.{most_elements};

/// At most 4,194,304 numbers are made lengths exactly if none is negative and the total is in the limit. Else the first negative
/// number is the fault, at its place; if there is none, the total is, without a place.
pub fn descriptor_law()
    ensures made { (numbers : List ℤ) (sizes : List ℕ) → length numbers ≤ most_elements →
        (descriptor_of numbers ≡ Ok sizes) ↔ (AreLengths numbers × (numbers ≡ map pos sizes)) }
    ensures first_negative { (numbers : List ℤ) (k : ℕ) →
        (descriptor_of numbers ≡ Err (fault_at no.NegativeLength k)) ↔ IsFirstNegative numbers k }
    ensures too_long { (numbers : List ℤ) → (descriptor_of numbers ≡ Err (fault no.TooLong))
        ↔ ((sizes : List ℕ) × (numbers ≡ map pos sizes) × (most_elements < sum sizes)) }
{}

/// A descriptor of lengths cut in two is the parts' descriptors in order, and its total the sum of theirs. The fault is the first
/// part's negative length, else the second's, moved by the number of the first part's lengths. If no length is negative, it is
/// the total if that is above the limit, whatever that is, though each part's own may be in the limit.
pub fn descriptor_in_parts()
    ensures { (most : ℕ) (lengths more : List ℤ) → descriptor_within most (lengths ++ more)
        ≡ descriptor_in_two most (length lengths) (descriptor_within most lengths) (descriptor_within most more) }
{}
