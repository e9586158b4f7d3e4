//! What some lines read as.

ghost use Rattle.std.specs.Prelude.{◌≡◌, codes, Ok, Err, [], ◌∷◌, pos, None};
ghost use Rattle.cvl_base.specs.declared.call.Arg.TheVariants as arg;
ghost use Rattle.cvl_base.specs.declared.call.ResultNames.TheVariants as results;
ghost use Rattle.cvl_base.specs.declared.families.IntBinary.TheVariants.{Monoid};
ghost use Rattle.cvl_base.specs.declared.families.IntMonoid.TheVariants.{Add};
ghost use Rattle.cvl_base.specs.declared.fault.FaultNo.TheVariants.{BadLine, UnknownCall, WrongArgumentCount, BadNumber};
ghost use Rattle.cvl_base.specs.declared.operation.Op.TheVariants.{Input, Ints2, Write};
ghost use Rattle.cvl_base.specs.Faults.{fault};
ghost use Rattle.line_reader.specs.Lines.{the_call};
ghost use Rattle.worked_scripts.specs.Outcomes.{call_in};

/// Worked lines, each with what it reads as. It does nothing: its contract is what the definition says of them.
pub fn know_lines()
    ensures empty { call_in "" ≡ Ok None }
    ensures comment { call_in "# a = input 1" ≡ Ok None }
    ensures reads { call_in "a = input 1" ≡ the_call (results.One (codes "a")) Input (arg.Integer (pos 1) ∷ []) }
    ensures reads_unspaced { call_in "a=input 1" ≡ call_in "a = input 1" }
    ensures reads_to_comment { call_in "a = input 1 # two # 3" ≡ call_in "a = input 1" }
    ensures reads_zeros { call_in "a = input 007" ≡ the_call (results.One (codes "a")) Input (arg.Integer (pos 7) ∷ []) }
    ensures reads_minus_zero { call_in "a = input -0" ≡ the_call (results.One (codes "a")) Input (arg.Integer (pos 0) ∷ []) }
    ensures reads_names { call_in "c = add_wuz q 1"
        ≡ the_call (results.One (codes "c")) (Ints2 (Monoid Add)) (arg.Name (codes "q") ∷ arg.Integer (pos 1) ∷ []) }
    ensures reads_write { call_in "write v d" ≡ the_call results.None Write (arg.Name (codes "v") ∷ arg.Name (codes "d") ∷ []) }
    ensures no_call { call_in "l =" ≡ Err (fault BadLine) }
    ensures bound_write { call_in "write = input 1" ≡ Err (fault BadLine) }
    ensures written_truth { call_in "write T" ≡ Err (fault BadLine) }
    ensures written_number { call_in "write 1" ≡ Err (fault BadLine) }
    ensures plus_sign { call_in "a = input +1" ≡ Err (fault BadLine) }
    ensures long_name { call_in "a23456789012345678901234567890123 = input 1" ≡ Err (fault BadLine) }
    ensures longest_name { call_in "write a2345678901234567890123456789012"
        ≡ the_call results.None Write (arg.Name (codes "a2345678901234567890123456789012") ∷ []) }
    ensures unknown { call_in "l = inp" ≡ Err (fault UnknownCall) }
    ensures too_few { call_in "l = input" ≡ Err (fault WrongArgumentCount) }
    ensures nothing_written { call_in "write" ≡ Err (fault WrongArgumentCount) }
    ensures three_written { call_in "write a b c" ≡ Err (fault WrongArgumentCount) }
    ensures two_names { call_in "v d = add_suz a" ≡ Err (fault WrongArgumentCount) }
    ensures equal_names { call_in "v v = input 1" ≡ Err (fault BadLine) }
    ensures three_names { call_in "v d e = input 1" ≡ Err (fault BadLine) }
    ensures two_names_unknown { call_in "v d = xyz 1" ≡ Err (fault UnknownCall) }
    ensures large_number { call_in "c = add_wuz q 99999999999" ≡ Err (fault BadNumber) }
{}
