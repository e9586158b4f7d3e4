//! Worked values of where a call is cut: evenly, at segments and at white space.

ghost use Rattle.std.specs.Prelude.{◌≡◌, Err, codes};
ghost use Rattle.part_cuts.specs.Evenly.{even_places, even_places_of};
ghost use Rattle.part_cuts.specs.Starts.{first_start, starts_at};
ghost use Rattle.part_cuts.specs.White.{white_places};
ghost use Rattle.worked_values.specs.Written.{length_mismatch, lengths};

/// Ten elements are cut into 3, 3, 2 and 2.
pub fn evenly_cut()
    ensures some { even_places 10 4 ≡ lengths "0 3 6 8 10" }
    ensures fewer_than_parts { even_places 2 3 ≡ lengths "0 1 2 2" }
    ensures no_part { even_places_of 1 7 ≡ Err length_mismatch }
{}

/// Segments of 2, 0, 3 and 0 elements start at 0, 2, 2 and 5.
pub fn first_starts()
    ensures at_the_front { first_start 0 (lengths "2 0 3 0") ≡ 0 }
    ensures inside_the_first { first_start 1 (lengths "2 0 3 0") ≡ 1 }
    ensures at_an_empty_one { first_start 2 (lengths "2 0 3 0") ≡ 1 }
    ensures inside_the_third { first_start 3 (lengths "2 0 3 0") ≡ 3 }
    ensures behind_all { first_start 6 (lengths "2 0 3 0") ≡ 4 }
    ensures starts { starts_at (lengths "2 0 3 0") (lengths "0 1 2 3 4") ≡ lengths "0 2 2 5 5" }
{}

/// The text `12 345 6` is cut behind `345`.
pub fn cut_at_white_space()
    ensures behind_a_token { white_places (codes "12 345 6") 2 ≡ lengths "0 6 8" }
    ensures at_the_end { white_places (codes "12 34567") 2 ≡ lengths "0 8 8" }
    ensures twice { white_places (codes "12 3 4 ") 3 ≡ lengths "0 4 6 7" }
{}
