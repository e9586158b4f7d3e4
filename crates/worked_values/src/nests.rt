//! Worked values of nests: a list, cut by lengths into a list of lists.

ghost use Rattle.std.specs.Prelude.{◌≡◌, ℤ, [], ◌∷◌};
ghost use Rattle.cvl_base.specs.Nests.{nest};
ghost use Rattle.worked_values.specs.Written.{ints, length_mismatch, lengths};

/// Empty segments before, between and after others, no segments at all, and lengths that don't add up to the list's.
pub fn nest()
    ensures empty_segments { nest (lengths "0 2 0 3 0") (ints "5 1 7 7 1") ≡ Ok ([] ∷ ints "5 1" ∷ [] ∷ ints "7 7 1" ∷ [] ∷ []) }
    ensures no_segments { nest {X = ℤ} [] [] ≡ Ok [] }
    ensures empty_segments_of_nothing { nest {X = ℤ} (lengths "0 0") [] ≡ Ok ([] ∷ [] ∷ []) }
    ensures list_too_short { nest (lengths "2 2") (ints "5 1 7") ≡ Err length_mismatch }
    ensures list_too_long { nest (lengths "2 0") (ints "5 1 7") ≡ Err length_mismatch }
    ensures list_without_segments { nest [] (ints "5") ≡ Err length_mismatch }
{}
