//! Worked values of checked sums, which never wrap.

ghost use Rattle.std.specs.Prelude.{◌≡◌, pos, [], Ok, Err};
ghost use Rattle.cvl_base.specs.declared.fault.FaultNo.TheVariants as no;
ghost use Rattle.cvl_base.specs.CheckedSums.{checked_reduce_of, checked_scan_of, checked_seg_reduce_of, checked_seg_scan_of};
ghost use Rattle.cvl_base.specs.Faults.{fault_at};
ghost use Rattle.worked_values.specs.Written.{ints, length_mismatch, lengths};

/// A scan's fault is its first result that does not fit, even if a later number would bring it back; what the last number adds is
/// in no result.
pub fn scan()
    ensures too_great { checked_scan_of (ints "2147483647 1 -1") ≡ Err (fault_at no.Overflow 2) }
    ensures least { checked_scan_of (ints "-2147483648 -1") ≡ Ok (ints "0 -2147483648") }
    ensures nothing { checked_scan_of [] ≡ Ok [] }
{}

/// A reduce has a fault if the whole sum does not fit, and not if only a partial sum does not.
pub fn reduce()
    ensures brought_back { checked_reduce_of (ints "2147483647 1 -1") ≡ Ok (pos 2147483647) }
    ensures too_small { checked_reduce_of (ints "-2147483648 -1") ≡ Err (fault_at no.Overflow 0) }
    ensures nothing { checked_reduce_of [] ≡ Ok (pos 0) }
{}

/// By segments a scan's fault has its place in the whole vector.
pub fn segmented_scan()
    ensures sums { checked_seg_scan_of (ints "1 5 0 2147483647 1") (lengths "3 0 2") ≡ Ok (ints "0 1 6 0 2147483647") }
    ensures second_segment { checked_seg_scan_of (ints "7 2147483647 1 3") (lengths "1 0 3") ≡ Err (fault_at no.Overflow 3) }
    ensures length_first { checked_seg_scan_of (ints "2147483647 1 1") (lengths "2") ≡ Err length_mismatch }
{}

/// And a reduce's at the segment.
pub fn segmented_reduce()
    ensures third_segment { checked_seg_reduce_of (ints "1 5 0 2147483647 1") (lengths "3 0 2") ≡ Err (fault_at no.Overflow 2) }
    ensures sums { checked_seg_reduce_of (ints "2147483647 -1 0 5 0") (lengths "3 0 2") ≡ Ok (ints "2147483646 0 5") }
    ensures length_first { checked_seg_reduce_of (ints "2147483647 1") (lengths "1") ≡ Err length_mismatch }
{}
