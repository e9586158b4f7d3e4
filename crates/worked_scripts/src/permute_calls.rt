//! The arguments of permutes, each in its place.

ghost use Rattle.std.specs.Prelude.{◌≡◌, [], ◌∷◌};
ghost use Rattle.cvl_base.specs.declared.families.Cut.TheVariants.{Flat, Segmented};
ghost use Rattle.cvl_base.specs.declared.families.Element.TheVariants as of;
ghost use Rattle.cvl_base.specs.declared.families.Form.TheVariants.{Back, Default, Select, Simple};
ghost use Rattle.cvl_base.specs.declared.operation.Op.TheVariants as op;
ghost use Rattle.worked_scripts.specs.Outcomes.{bools, ints, lengths, value_of};
ghost use Rattle.worked_values.specs.Written.{repeated};

/// The source, the index and, by segments, the descriptor of both.
pub fn simple_permute()
    ensures integers { value_of (op.Permute Simple Flat of.Integer) (ints "10 20 30" ∷ ints "2 0 1" ∷ []) ≡ Ok (ints "20 30 10") }
    ensures booleans { value_of (op.Permute Simple Flat of.Boolean) (bools "T F F" ∷ ints "2 0 1" ∷ []) ≡ Ok (bools "F F T") }
    ensures integers_in_segments { value_of (op.Permute Simple Segmented of.Integer)
        (ints "1 2 3 4 5" ∷ ints "1 0 2 0 1" ∷ lengths "2 0 3" ∷ []) ≡ Ok (ints "2 1 4 5 3") }
    ensures booleans_in_segments { value_of (op.Permute Simple Segmented of.Boolean)
        (bools "T F F T F" ∷ ints "1 0 2 0 1" ∷ lengths "2 0 3" ∷ []) ≡ Ok (bools "F T T F F") }
{}

/// The source, the index and, by segments, the descriptor of the source before that of the index.
pub fn back_permute()
    ensures integers { value_of (op.Permute Back Flat of.Integer) (ints "10 20 30" ∷ ints "2 2 0 0" ∷ [])
        ≡ Ok (ints "30 30 10 10") }
    ensures booleans { value_of (op.Permute Back Flat of.Boolean) (bools "T F F" ∷ ints "2 0 0 1" ∷ []) ≡ Ok (bools "F T T F") }
    ensures integers_in_segments { value_of (op.Permute Back Segmented of.Integer)
        (ints "1 2 3 4 5" ∷ ints "1 1 1 2" ∷ lengths "2 0 3" ∷ lengths "3 0 1" ∷ []) ≡ Ok (ints "2 2 2 5") }
    ensures booleans_in_segments { value_of (op.Permute Back Segmented of.Boolean)
        (bools "T F F T F" ∷ ints "1 1 0 1" ∷ lengths "2 0 3" ∷ lengths "3 0 1" ∷ []) ≡ Ok (bools "F F T T") }
    ensures integers_in_segments_of_one_total { value_of (op.Permute Back Segmented of.Integer)
        (ints "1 2 3" ∷ ints "0 0 1" ∷ lengths "1 2" ∷ lengths "2 1" ∷ []) ≡ Ok (ints "1 1 3") }
{}

/// The source, the index, the flags and, by segments, the descriptor of all three.
pub fn select_permute()
    ensures integers { value_of (op.Permute Select Flat of.Integer) (ints "1 2 3 4" ∷ ints "1 9 0 9" ∷ bools "T F T F" ∷ [])
        ≡ Ok (ints "3 1") }
    ensures booleans { value_of (op.Permute Select Flat of.Boolean) (bools "T T F F" ∷ ints "1 9 0 9" ∷ bools "T F T F" ∷ [])
        ≡ Ok (bools "F T") }
    ensures integers_in_segments { value_of (op.Permute Select Segmented of.Integer)
        (ints "1 2 3 4 5" ∷ ints "9 0 1 9 0" ∷ bools "F T T F T" ∷ lengths "2 0 3" ∷ []) ≡ Ok (ints "2 5 3") }
    ensures booleans_in_segments { value_of (op.Permute Select Segmented of.Boolean)
        (bools "T F F T T" ∷ ints "9 0 1 9 0" ∷ bools "F T T F T" ∷ lengths "2 0 3" ∷ []) ≡ Ok (bools "F T F") }
{}

/// The source, the index, the defaults and, by segments, the descriptor of the source before that of the defaults.
pub fn default_permute()
    ensures integers { value_of (op.Permute Default Flat of.Integer) (ints "7 8" ∷ ints "3 1" ∷ ints "0 0 0 0 0" ∷ [])
        ≡ Ok (ints "0 8 0 7 0") }
    ensures booleans { value_of (op.Permute Default Flat of.Boolean) (bools "T F" ∷ ints "3 1" ∷ bools "F T F F T" ∷ [])
        ≡ Ok (bools "F F F T T") }
    ensures integers_in_segments { value_of (op.Permute Default Segmented of.Integer)
        (ints "1 2 3 4 5" ∷ ints "2 0 0 1 2" ∷ ints "0 0 0 9 0 0 0" ∷ lengths "2 0 3" ∷ lengths "3 1 3" ∷ [])
        ≡ Ok (ints "2 0 1 9 3 4 5") }
    ensures booleans_in_segments { value_of (op.Permute Default Segmented of.Boolean)
        (bools "T T F T F" ∷ ints "2 0 0 1 2" ∷ bools "F F F T F F F" ∷ lengths "2 0 3" ∷ lengths "3 1 3" ∷ [])
        ≡ Ok (bools "T F T T F T F") }
    ensures integers_in_segments_of_one_total { value_of (op.Permute Default Segmented of.Integer)
        (ints "1 2 3" ∷ ints "1 0 0" ∷ ints "7 8 9" ∷ lengths "1 2" ∷ lengths "2 1" ∷ []) ≡ Err (repeated 2) }
{}
