//! The arguments of the elementwise calls, each in its place.

ghost use Rattle.std.specs.Prelude.{◌≡◌, [], ◌∷◌};
ghost use Rattle.cvl_base.specs.declared.families.BoolBinary.TheVariants as truth;
ghost use Rattle.cvl_base.specs.declared.families.Comparison.TheVariants.{Less};
ghost use Rattle.cvl_base.specs.declared.families.Element.TheVariants as of;
ghost use Rattle.cvl_base.specs.declared.families.IntBinary.TheVariants as int;
ghost use Rattle.cvl_base.specs.declared.families.Unary.TheVariants.{Not};
ghost use Rattle.cvl_base.specs.declared.operation.Op.TheVariants as op;
ghost use Rattle.worked_scripts.specs.Outcomes.{bools, ints, value_of};

/// Each operator takes its vectors in the order of the script, and a choice its flags first.
pub fn elementwise()
    ensures integers_with_integers { value_of (op.Ints2 int.Sub) (ints "3 9" ∷ ints "5 2" ∷ []) ≡ Ok (ints "-2 7") }
    ensures integers_alone { value_of (op.Ints1 Not) (ints "1 -3" ∷ []) ≡ Ok (ints "-2 2") }
    ensures integers_compared { value_of (op.Compare Less) (ints "1 5" ∷ ints "2 4" ∷ []) ≡ Ok (bools "T F") }
    ensures booleans_with_booleans { value_of (op.Bools2 truth.Ior) (bools "T F F" ∷ bools "F T F" ∷ []) ≡ Ok (bools "T T F") }
    ensures booleans_alone { value_of (op.Bools1 Not) (bools "T F" ∷ []) ≡ Ok (bools "F T") }
    ensures integers_chosen { value_of (op.Choose of.Integer) (bools "T F T" ∷ ints "1 2 3" ∷ ints "4 5 6" ∷ [])
        ≡ Ok (ints "1 5 3") }
    ensures booleans_chosen { value_of (op.Choose of.Boolean) (bools "T F T F" ∷ bools "T T F F" ∷ bools "F F T T" ∷ [])
        ≡ Ok (bools "T F F T") }
    ensures integers_from_booleans { value_of op.IntFromBool (bools "T F" ∷ []) ≡ Ok (ints "1 0") }
    ensures booleans_from_integers { value_of op.BoolFromInt (ints "-3 0" ∷ []) ≡ Ok (bools "T F") }
{}
