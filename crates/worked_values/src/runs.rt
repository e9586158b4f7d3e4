//! Worked values of the runs of equal neighbours. Unless others are named the segments have 2, 0 and 3 elements.

ghost use Rattle.std.specs.Prelude.{◌≡◌, [], Ok, Err};
ghost use Rattle.cvl_base.specs.Booleans.{differ};
ghost use Rattle.cvl_base.specs.Integers.{is_unequal};
ghost use Rattle.run_lengths.specs.Runs.{its_length, its_start, run_count_of, run_numbers_of, seg_run_numbers_of};
ghost use Rattle.segment_values.specs.Values.{each_of};
ghost use Rattle.worked_values.specs.Written.{bools, ints, length_mismatch, lengths, segments};

/// How long each run is, and where it begins; the last one counts, too.
pub fn runs()
    ensures keys { run_numbers_of its_length is_unequal (ints "3 3 5 5 5 2") ≡ ints "2 3 1" }
    ensures starts_of_keys { run_numbers_of its_start is_unequal (ints "3 3 5 5 5 2") ≡ ints "0 2 5" }
    ensures again { run_numbers_of its_length is_unequal (ints "3 3 5 3") ≡ ints "2 1 1" }
    ensures none { run_numbers_of its_length is_unequal [] ≡ [] }
    ensures one { run_numbers_of its_length is_unequal (ints "7") ≡ ints "1" }
    ensures start_of_one { run_numbers_of its_start is_unequal (ints "7") ≡ ints "0" }
    ensures all_equal { run_numbers_of its_length is_unequal (ints "7 7 7 7") ≡ ints "4" }
    ensures all_other { run_numbers_of its_start is_unequal (ints "-1 1 -1 0") ≡ ints "0 1 2 3" }
    ensures booleans { run_numbers_of its_length differ (bools "T T F T") ≡ ints "2 1 1" }
    ensures starts_of_booleans { run_numbers_of its_start differ (bools "T T F T") ≡ ints "0 2 3" }
{}

/// A run ends where its segment does. Its start counts from that of the whole vector.
pub fn runs_by_segments()
    ensures over_the_end { seg_run_numbers_of its_length is_unequal (ints "3 3 3 5 5") segments ≡ Ok (ints "2 1 2") }
    ensures starts { seg_run_numbers_of its_start is_unequal (ints "3 3 3 5 5") segments ≡ Ok (ints "0 2 3") }
    ensures counts { each_of (run_count_of is_unequal) (ints "3 3 3 5 5") segments ≡ Ok (ints "1 0 2") }
    ensures of_one { seg_run_numbers_of its_length differ (bools "T T T") (lengths "1 1 1") ≡ Ok (ints "1 1 1") }
    ensures empty_ones { seg_run_numbers_of its_start differ (bools "T T F") (lengths "0 3 0") ≡ Ok (ints "0 2") }
    ensures no_segments { seg_run_numbers_of its_length is_unequal [] [] ≡ Ok [] }
    ensures other_segments { seg_run_numbers_of its_length is_unequal (ints "3 3 3 5") segments ≡ Err length_mismatch }
    ensures counts_of_others { each_of (run_count_of is_unequal) (ints "3 3 3 5") segments ≡ Err length_mismatch }
{}
