//! Whole scripts: their text, and the line of their first fault.

ghost use Rattle.std.specs.Prelude.{◌≡◌, codes, [], ◌∷◌};
ghost use Rattle.cvl_base.specs.declared.fault.FaultNo.TheVariants as no;
ghost use Rattle.cvl_base.specs.Faults.{fault, fault_at};
ghost use Rattle.worked_scripts.specs.Outcomes.{outcome_on, stops, writes};

/// A script without lines, and one whose lines are empty or comments, writes nothing.
pub fn nothing()
    ensures no_line { outcome_on "" [] ≡ writes "" }
    ensures empty_lines { outcome_on "\n \t\n# write q\n\r\n" [] ≡ writes "" }
{}

/// A scan of an input, of the empty input too.
pub fn scanned()
    ensures elements { outcome_on "a = input 1\nb = add_suz a\nwrite b\n" ("3 1 7" ∷ []) ≡ writes "b = [0 3 4]\n" }
    ensures no_elements { outcome_on "a = input 1\nb = add_suz a\nwrite b\n" ("" ∷ []) ≡ writes "b = []\n" }
{}

/// What follows `#` is a comment, one carriage return before the line feed is dropped, and the last line needs no line
/// feed; blanks may stand around each token, and need not stand around `=`.
pub fn comments_and_line_ends()
    ensures one_comment { outcome_on "a=input 1 # two = 2\r\nwrite a" ("0 1" ∷ []) ≡ writes "a = [0 1]\n" }
    ensures blanks { outcome_on "\ta  =\tinput 1\r\n write a #\r\n" ("0 1" ∷ []) ≡ writes "a = [0 1]\n" }
    ensures carriage_return_within_a_line { outcome_on "a = input 1\r\r\n" ("" ∷ []) ≡ stops 1 no.BadNumber }
{}

/// The text of the lines before a fault stands, and the lines after it aren't read.
pub fn fault_in_the_middle()
    ensures unknown_call { outcome_on "a = input 1\nwrite a\nb = xyz_wuz a\nwrite a\n" ("5" ∷ [])
        ≡ (codes "a = [5]\n", Some (3, fault no.UnknownCall)) }
    ensures place_of_an_element { outcome_on "a = input 1\nwrite a\nb = div_wuz a a\n?\n" ("5 0" ∷ [])
        ≡ (codes "a = [5 0]\n", Some (3, fault_at no.DivideByZero 1)) }
    ensures first_of_two_faults { outcome_on "# two lines\nwrite q\n= =\n" [] ≡ stops 2 no.UnknownName }
{}

/// A name may be bound again, to a value of another kind, and keeps its value if the line that would bind it is faulty.
pub fn bound_again()
    ensures another_kind { outcome_on "a = input 1\nwrite a\na = boo_wuz a\nwrite a\n" ("5 0" ∷ [])
        ≡ writes "a = [5 0]\na = [T F]\n" }
    ensures descriptor_and_its_lengths { outcome_on
        "a = input 1\na = mke_fov a\nwrite a\na = len_fos a\nb = add_wuz a a\nwrite b\n"
        ("2 0" ∷ []) ≡ writes "a = [2 0]\nb = [4 0]\n" }
{}
