//! Both forms of `write`.

ghost use Rattle.std.specs.Prelude.{◌≡◌, [], ◌∷◌};
ghost use Rattle.cvl_base.specs.declared.fault.FaultNo.TheVariants as no;
ghost use Rattle.worked_scripts.specs.Outcomes.{outcome_on, stops, writes};

/// A value is written alone, a descriptor as its lengths, and a vector beside a descriptor as its segments.
pub fn written()
    ensures vector_alone { outcome_on "v = input 1\nwrite v\n" ("5 -1" ∷ []) ≡ writes "v = [5 -1]\n" }
    ensures descriptor_alone { outcome_on "l = input 1\nd = mke_fov l\nwrite d\n" ("2 0 1" ∷ []) ≡ writes "d = [2 0 1]\n" }
    ensures vector_in_segments { outcome_on "l = input 1\nv = input 2\nd = mke_fov l\nwrite v d\n"
        ("0 2 0 3 0" ∷ "5 1 7 7 1" ∷ [])
        ≡ writes "v = [[] [5 1] [] [7 7 1] []]\n" }
    ensures booleans_in_segments { outcome_on "l = input 1\nv = input 2\nd = mke_fov l\nb = boo_wuz v\nwrite b d\n"
        ("0 2" ∷ "5 0" ∷ [])
        ≡ writes "b = [[] [T F]]\n" }
    ensures no_segments { outcome_on "l = input 1\nd = mke_fov l\nwrite l d\nwrite d\n" ("" ∷ []) ≡ writes "l = []\nd = []\n" }
{}

/// The faults of a `write` in their order: the form of the line, the number of names, each name from left to right, and
/// then lengths that don't agree.
pub fn faults()
    ensures literal { outcome_on "write 1 q r" [] ≡ stops 1 no.BadLine }
    ensures call_of_that_name { outcome_on "write = input 1" [] ≡ stops 1 no.BadLine }
    ensures no_name { outcome_on "write" [] ≡ stops 1 no.WrongArgumentCount }
    ensures three_names { outcome_on "write q q q" [] ≡ stops 1 no.WrongArgumentCount }
    ensures first_name_unknown { outcome_on "write q q" [] ≡ stops 1 no.UnknownName }
    ensures second_name_unknown { outcome_on "v = input 1\nwrite v q" ("" ∷ []) ≡ stops 2 no.UnknownName }
    ensures second_name_no_descriptor { outcome_on "v = input 1\nwrite v v" ("" ∷ []) ≡ stops 2 no.WrongKind }
    ensures wrong_kind_before_unknown_name { outcome_on "v = input 1\nd = mke_fov v\nwrite d q" ("" ∷ []) ≡ stops 3 no.WrongKind }
    ensures total_too_great { outcome_on "v = input 1\nd = mke_fov v\nwrite v d" ("2" ∷ []) ≡ stops 3 no.LengthMismatch }
{}
