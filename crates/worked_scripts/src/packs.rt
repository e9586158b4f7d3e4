//! The arguments of lengths, counts and packs, each in its place.

ghost use Rattle.std.specs.Prelude.{◌≡◌, pos, [], ◌∷◌};
ghost use Rattle.cvl_base.specs.declared.families.Cut.TheVariants.{Flat, Segmented};
ghost use Rattle.cvl_base.specs.declared.families.Element.TheVariants as of;
ghost use Rattle.cvl_base.specs.declared.operation.Op.TheVariants as op;
ghost use Rattle.cvl_base.specs.declared.value.Value.TheVariants.{Integer};
ghost use Rattle.worked_scripts.specs.Outcomes.{bools, ints, lengths, value_of};

/// The number of elements, as an integer.
pub fn length()
    ensures integers { value_of (op.Length of.Integer) (ints "7 7 -7" ∷ []) ≡ Ok (Integer (pos 3)) }
    ensures booleans { value_of (op.Length of.Boolean) (bools "T F" ∷ []) ≡ Ok (Integer (pos 2)) }
{}

/// The number of true flags as an integer, or by segments one for each in a vector.
pub fn count()
    ensures counted { value_of (op.Count Flat) (bools "F T T F T" ∷ []) ≡ Ok (Integer (pos 3)) }
    ensures counted_in_segments { value_of (op.Count Segmented) (bools "F T T F T" ∷ lengths "2 0 3" ∷ []) ≡ Ok (ints "1 0 2") }
{}

/// The values, the flags and, by segments, the descriptor of both; the lengths of what is kept are a descriptor.
pub fn pack()
    ensures integers { value_of (op.Pack Flat of.Integer) (ints "1 2 3" ∷ bools "F T T" ∷ []) ≡ Ok (ints "2 3") }
    ensures booleans { value_of (op.Pack Flat of.Boolean) (bools "T F T" ∷ bools "F T T" ∷ []) ≡ Ok (bools "F T") }
    ensures integers_in_segments { value_of (op.Pack Segmented of.Integer)
        (ints "1 2 3 4 5" ∷ bools "F T T F T" ∷ lengths "2 0 3" ∷ [])
        ≡ Ok (ints "2 3 5") }
    ensures booleans_in_segments { value_of (op.Pack Segmented of.Boolean)
        (bools "T F T F T" ∷ bools "T F F T T" ∷ lengths "2 0 3" ∷ [])
        ≡ Ok (bools "T F T") }
    ensures packed_lengths { value_of op.PackedLengths (bools "F T T F T" ∷ lengths "2 0 3" ∷ []) ≡ Ok (lengths "1 0 2") }
{}
