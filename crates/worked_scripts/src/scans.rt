//! The arguments of scans and reduces, each in its place.

ghost use Rattle.std.specs.Prelude.{◌≡◌, pos, false, [], ◌∷◌};
ghost use Rattle.cvl_base.specs.declared.families.BoolBinary.TheVariants as truth;
ghost use Rattle.cvl_base.specs.declared.families.Cut.TheVariants.{Flat, Segmented};
ghost use Rattle.cvl_base.specs.declared.families.IntMonoid.TheVariants as monoid;
ghost use Rattle.cvl_base.specs.declared.operation.Op.TheVariants as op;
ghost use Rattle.cvl_base.specs.declared.value.Value.TheVariants.{Boolean, Integer};
ghost use Rattle.worked_scripts.specs.Outcomes.{bools, ints, lengths, value_of};

/// A scan takes its vector, and by segments the descriptor after it; it gives a vector.
pub fn scan()
    ensures integers { value_of (op.Scan monoid.Add Flat) (ints "3 1 7" ∷ []) ≡ Ok (ints "0 3 4") }
    ensures integers_in_segments { value_of (op.Scan monoid.Add Segmented) (ints "1 2 3 4 5" ∷ lengths "2 0 3" ∷ [])
        ≡ Ok (ints "0 1 0 3 7") }
    ensures booleans { value_of (op.BoolScan truth.Ior Flat) (bools "F T F" ∷ []) ≡ Ok (bools "F F T") }
    ensures booleans_in_segments { value_of (op.BoolScan truth.Ior Segmented) (bools "T F F T F" ∷ lengths "2 0 3" ∷ [])
        ≡ Ok (bools "F T F F T") }
{}

/// A reduce takes the same and gives one value, or by segments one for each.
pub fn reduce()
    ensures integers { value_of (op.Reduce monoid.Max Flat) (ints "3 9 7" ∷ []) ≡ Ok (Integer (pos 9)) }
    ensures integers_in_segments { value_of (op.Reduce monoid.Add Segmented) (ints "1 2 3 4 5" ∷ lengths "2 0 3" ∷ [])
        ≡ Ok (ints "3 0 12") }
    ensures booleans { value_of (op.BoolReduce truth.And Flat) (bools "T F T" ∷ []) ≡ Ok (Boolean false) }
    ensures booleans_in_segments { value_of (op.BoolReduce truth.And Segmented) (bools "T F T T T" ∷ lengths "2 0 3" ∷ [])
        ≡ Ok (bools "F T T") }
{}
