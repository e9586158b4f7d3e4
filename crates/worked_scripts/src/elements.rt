//! The arguments of the calls on single elements and on descriptors, each in its place.

ghost use Rattle.std.specs.Prelude.{◌≡◌, negsuc, pos, true, false, [], ◌∷◌};
ghost use Rattle.cvl_base.specs.declared.families.Cut.TheVariants.{Flat, Segmented};
ghost use Rattle.cvl_base.specs.declared.families.Element.TheVariants as of;
ghost use Rattle.cvl_base.specs.declared.operation.Op.TheVariants as op;
ghost use Rattle.cvl_base.specs.declared.value.Value.TheVariants.{Boolean, Integer};
ghost use Rattle.worked_scripts.specs.Outcomes.{bools, ints, lengths, value_of};

/// The value and then its count, or by segments the values and then the descriptor.
pub fn distribute()
    ensures integers { value_of (op.Distribute Flat of.Integer) (Integer (pos 7) ∷ Integer (pos 3) ∷ []) ≡ Ok (ints "7 7 7") }
    ensures booleans { value_of (op.Distribute Flat of.Boolean) (Boolean true ∷ Integer (pos 2) ∷ []) ≡ Ok (bools "T T") }
    ensures integers_in_segments { value_of (op.Distribute Segmented of.Integer) (ints "7 8 9" ∷ lengths "2 0 3" ∷ [])
        ≡ Ok (ints "7 7 9 9 9") }
    ensures booleans_in_segments { value_of (op.Distribute Segmented of.Boolean) (bools "T T F" ∷ lengths "2 0 3" ∷ [])
        ≡ Ok (bools "T T F F F") }
{}

/// The init, the stride and then the count, or by segments as many of both and then the descriptor.
pub fn index()
    ensures numbers { value_of (op.Index Flat) (Integer (pos 10) ∷ Integer (negsuc 1) ∷ Integer (pos 3) ∷ [])
        ≡ Ok (ints "10 8 6") }
    ensures numbers_in_segments { value_of (op.Index Segmented) (ints "0 5 10" ∷ ints "1 1 -2" ∷ lengths "2 0 3" ∷ [])
        ≡ Ok (ints "0 1 10 8 6") }
{}

/// The vector and then the index, or by segments one index for each and then the descriptor.
pub fn extract()
    ensures integer { value_of (op.Extract Flat of.Integer) (ints "1 2 3" ∷ Integer (pos 2) ∷ []) ≡ Ok (Integer (pos 3)) }
    ensures boolean { value_of (op.Extract Flat of.Boolean) (bools "T F T" ∷ Integer (pos 1) ∷ []) ≡ Ok (Boolean false) }
    ensures integers_in_segments { value_of (op.Extract Segmented of.Integer) (ints "1 2 3 4 5" ∷ ints "1 2" ∷ lengths "2 3" ∷ [])
        ≡ Ok (ints "2 5") }
    ensures booleans_in_segments { value_of (op.Extract Segmented of.Boolean)
        (bools "F T T F F" ∷ ints "1 0" ∷ lengths "2 3" ∷ [])
        ≡ Ok (bools "T T") }
{}

/// The vector, the index and then the value, or by segments one of both for each and then the descriptor.
pub fn replace()
    ensures integer { value_of (op.Replace Flat of.Integer) (ints "4 5 6" ∷ Integer (pos 1) ∷ Integer (pos 0) ∷ [])
        ≡ Ok (ints "4 0 6") }
    ensures boolean { value_of (op.Replace Flat of.Boolean) (bools "F F F" ∷ Integer (pos 1) ∷ Boolean true ∷ [])
        ≡ Ok (bools "F T F") }
    ensures integers_in_segments { value_of (op.Replace Segmented of.Integer)
        (ints "6 7 8 9 5" ∷ ints "0 1" ∷ ints "1 0" ∷ lengths "2 3" ∷ []) ≡ Ok (ints "1 7 8 0 5") }
    ensures booleans_in_segments { value_of (op.Replace Segmented of.Boolean)
        (bools "F F F F F" ∷ ints "1 0" ∷ bools "T T" ∷ lengths "2 3" ∷ []) ≡ Ok (bools "F T T F F") }
{}

/// A descriptor is made of a vector of lengths, and its lengths are such a vector again.
pub fn descriptors()
    ensures made { value_of op.MakeDescriptor (ints "2 0 3" ∷ []) ≡ Ok (lengths "2 0 3") }
    ensures lengths_read { value_of op.DescriptorLengths (lengths "2 0 3" ∷ []) ≡ Ok (ints "2 0 3") }
{}
