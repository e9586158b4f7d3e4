//! Which fault is reported if one line has several.

ghost use Rattle.std.specs.Prelude.{◌≡◌, take, [], ◌∷◌};
ghost use Rattle.cvl_base.specs.declared.fault.FaultNo.TheVariants as no;
ghost use Rattle.cvl_base.specs.Faults.{fault, fault_at};
ghost use Rattle.worked_scripts.specs.BoundNames.{full, step_over};
ghost use Rattle.worked_scripts.specs.Outcomes.{outcome_on, stops};

/// The form of the line, the call's name, the number of its arguments and the line's numbers come before the meaning of the
/// names.
pub fn reading()
    ensures form_before_call { outcome_on "c = xyz_wuz ?" [] ≡ stops 1 no.BadLine }
    ensures call_before_number_of_arguments { outcome_on "c = xyz_wuz" [] ≡ stops 1 no.UnknownCall }
    ensures number_of_arguments_before_numbers { outcome_on "c = add_wuz 99999999999" [] ≡ stops 1 no.WrongArgumentCount }
    ensures numbers_before_names { outcome_on "c = add_wuz q 99999999999" [] ≡ stops 1 no.BadNumber }
{}

/// Arguments are checked from left to right, each for its name and then its kind.
pub fn arguments()
    ensures unknown_name_before_wrong_kind { outcome_on "c = add_wuz q 1" [] ≡ stops 1 no.UnknownName }
    ensures wrong_kind_before_unknown_name { outcome_on "c = add_wuz 1 q" [] ≡ stops 1 no.WrongKind }
    ensures unknown_name_before_missing_input { outcome_on "c = input q" [] ≡ stops 1 no.UnknownName }
    ensures wrong_kind_before_missing_input { outcome_on "c = input T" [] ≡ stops 1 no.WrongKind }
    ensures wrong_kind_before_lengths { outcome_on "v = input 1\nd = mke_fov v\nc = sel_wuz d v v" ("1" ∷ [])
        ≡ stops 3 no.WrongKind }
{}

/// If 4,096 names are bound, a new one is refused after the arguments are checked and before the call is made. If there is room,
/// or the name is bound already, the call's own fault is reported.
pub fn too_many_names()
    ensures unknown_name_first { step_over full "c = not_wuz q" ≡ Err (fault no.UnknownName) }
    ensures wrong_kind_first { step_over full "c = not_wuz 1" ≡ Err (fault no.WrongKind) }
    ensures before_missing_input { step_over full "c = input 1" ≡ Err (fault no.TooManyNames) }
    ensures before_lengths { step_over full "c = add_wuz n0000 n0001" ≡ Err (fault no.TooManyNames) }
    ensures lengths_where_one_name_is_free { step_over (take 4095 full) "c = add_wuz n0000 n0001"
        ≡ Err (fault no.LengthMismatch) }
    ensures missing_input_of_a_bound_name { step_over full "n7777 = input 1" ≡ Err (fault no.NoSuchInput) }
    ensures lengths_of_a_bound_name { step_over full "n7777 = add_wuz n0000 n0001" ≡ Err (fault no.LengthMismatch) }
{}

/// Two names are read before the call is known, and the number of names before the line's numbers.
pub fn names_to_bind()
    ensures same_name_twice { outcome_on "v v = nested 1" [] ≡ stops 1 no.BadLine }
    ensures unknown_call { outcome_on "v d = xyz 1" [] ≡ stops 1 no.UnknownCall }
    ensures one_name_for_two_values { outcome_on "v = nested 99999999999" [] ≡ stops 1 no.WrongArgumentCount }
    ensures two_names_for_one_value { outcome_on "v d = input 99999999999" [] ≡ stops 1 no.WrongArgumentCount }
    ensures numbers_before_missing_input { outcome_on "v d = nested 99999999999" [] ≡ stops 1 no.BadNumber }
    ensures missing_input { outcome_on "v d = nested 2" ("" ∷ []) ≡ stops 1 no.NoSuchInput }
    ensures vector { outcome_on "v d = nested 1" ("" ∷ []) ≡ ([], Some (1, fault_at no.BadInput 0)) }
{}

/// Two names are refused if with the new ones of them more than 4,096 are bound, after the arguments are checked and before the
/// call is made.
pub fn too_many_names_for_two()
    ensures unknown_name_first { step_over full "v d = nested q" ≡ Err (fault no.UnknownName) }
    ensures wrong_kind_first { step_over full "v d = nested T" ≡ Err (fault no.WrongKind) }
    ensures two_new_where_one_is_free { step_over (take 4095 full) "v d = nested 1" ≡ Err (fault no.TooManyNames) }
    ensures two_new_where_two_are_free { step_over (take 4094 full) "v d = nested 1" ≡ Err (fault no.NoSuchInput) }
    ensures first_new_where_none_is_free { step_over full "v n0000 = nested 1" ≡ Err (fault no.TooManyNames) }
    ensures first_new_where_one_is_free { step_over (take 4095 full) "v n0000 = nested 1" ≡ Err (fault no.NoSuchInput) }
    ensures second_new_where_none_is_free { step_over full "n0000 d = nested 1" ≡ Err (fault no.TooManyNames) }
    ensures second_new_where_one_is_free { step_over (take 4095 full) "n0000 d = nested 1" ≡ Err (fault no.NoSuchInput) }
    ensures none_new { step_over full "n0000 n7777 = nested 1" ≡ Err (fault no.NoSuchInput) }
{}

/// Inputs are counted from 1.
pub fn missing_inputs()
    ensures past_the_last { outcome_on "a = input 2" ("" ∷ []) ≡ stops 1 no.NoSuchInput }
    ensures before_the_first { outcome_on "a = input 0" ("" ∷ []) ≡ stops 1 no.NoSuchInput }
    ensures below_0 { outcome_on "a = input -1" ("" ∷ []) ≡ stops 1 no.NoSuchInput }
{}
