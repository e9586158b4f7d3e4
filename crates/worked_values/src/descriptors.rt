//! Worked values of making a descriptor.

ghost use Rattle.std.specs.Prelude.{◌≡◌, []};
ghost use Rattle.cvl_base.specs.declared.fault.FaultNo.TheVariants as no;
ghost use Rattle.cvl_base.specs.Descriptors.{descriptor_of, descriptor_within};
ghost use Rattle.cvl_base.specs.Faults.{fault, fault_at};
ghost use Rattle.cvl_base.specs.Limits.{most_places};
ghost use Rattle.worked_values.specs.Written.{ints, lengths};

/// A descriptor is made of lengths; the fault is the first negative one, and only if there is none a total above the limit.
pub fn make_descriptor()
    ensures made { descriptor_of (ints "0 2 0 3 0") ≡ Ok (lengths "0 2 0 3 0") }
    ensures made_of_nothing { descriptor_of [] ≡ Ok [] }
    ensures made_of_the_limit { descriptor_of (ints "4194304") ≡ Ok (lengths "4194304") }
    ensures made_at_limit { descriptor_of (ints "4194303 1") ≡ Ok (lengths "4194303 1") }
    ensures first_negative { descriptor_of (ints "3 -1 -2") ≡ Err (fault_at no.NegativeLength 1) }
    ensures above_limit { descriptor_of (ints "4194304 1") ≡ Err (fault no.TooLong) }
    ensures negative_before_limit { descriptor_of (ints "4194304 1 -1") ≡ Err (fault_at no.NegativeLength 2) }
{}

/// The same for a caller in another language, whose limit is greater.
pub fn make_long_descriptor()
    ensures made_of_the_limit { descriptor_within most_places (ints "2147483647") ≡ Ok (lengths "2147483647") }
    ensures made_at_limit { descriptor_within most_places (ints "2147483646 1") ≡ Ok (lengths "2147483646 1") }
    ensures above_limit { descriptor_within most_places (ints "2147483647 1") ≡ Err (fault no.TooLong) }
    ensures negative_before_limit { descriptor_within most_places (ints "2147483647 1 -1") ≡ Err (fault_at no.NegativeLength 2) }
{}
