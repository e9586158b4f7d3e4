//! Worked texts, each a function that takes and gives nothing and has them as its contract.

ghost use Rattle.std.specs.Prelude.{◌≡◌, true, false, [], ◌∷◌, codes, pos, negsuc, Some, None, Ok};
ghost use Rattle.cvl_base.specs.declared.value.Value.TheVariants as value;
ghost use Rattle.line_reader.specs.Numbers.{written_number};
ghost use Rattle.value_texts.specs.Texts.{text_of, value_text};

use std::alloc::Allocator;

/// The text of each kind of value.
pub fn text_values<A: Allocator>()
    ensures integers { text_of {A = A} (value.Integers (pos 0 ∷ (pos 3 ∷ (pos 4 ∷ [])))) ≡ codes "[0 3 4]" }
    ensures no_integers { text_of {A = A} (value.Integers []) ≡ codes "[]" }
    ensures booleans { text_of {A = A} (value.Booleans (true ∷ (true ∷ (false ∷ [])))) ≡ codes "[T T F]" }
    ensures no_booleans { text_of {A = A} (value.Booleans []) ≡ codes "[]" }
    ensures descriptor { text_of {A = A} (value.Descriptor (0 ∷ (0 ∷ (2 ∷ [])))) ≡ codes "[0 0 2]" }
    ensures no_segments { text_of {A = A} (value.Descriptor []) ≡ codes "[]" }
    ensures negative { text_of {A = A} (value.Integer (negsuc 6)) ≡ codes "-7" }
    ensures least { text_of {A = A} (value.Integer (negsuc 2147483647)) ≡ codes "-2147483648" }
    ensures greatest { text_of {A = A} (value.Integer (pos 2147483647)) ≡ codes "2147483647" }
    ensures yes { text_of {A = A} (value.Boolean true) ≡ codes "T" }
    ensures no { text_of {A = A} (value.Boolean false) ≡ codes "F" }
{}

/// The text of vectors beside a descriptor, with empty segments before, between and after others, and of no segments
/// at all.
pub fn nested_text_values<A: Allocator>()
    ensures integers { value_text {A = A} (Some (0 ∷ (2 ∷ (0 ∷ (3 ∷ (0 ∷ []))))))
        (value.Integers (pos 5 ∷ (pos 1 ∷ (pos 7 ∷ (pos 7 ∷ (pos 1 ∷ []))))))
        ≡ Ok (codes "[[] [5 1] [] [7 7 1] []]") }
    ensures booleans { value_text {A = A} (Some (1 ∷ (2 ∷ []))) (value.Booleans (true ∷ (false ∷ (true ∷ []))))
        ≡ Ok (codes "[[T] [F T]]") }
    ensures no_segments { value_text {A = A} (Some []) (value.Integers []) ≡ Ok (codes "[]") }
    ensures empty_segment { value_text {A = A} (Some (0 ∷ [])) (value.Integers []) ≡ Ok (codes "[[]]") }
    ensures alone { value_text {A = A} None (value.Integers (pos 12 ∷ (negsuc 0 ∷ []))) ≡ Ok (codes "[12 -1]") }
{}

/// The text of an integer, read as a number, is that integer. It does nothing: its contract says so of the definitions.
#[tactic(auto, using(crate::proofs::ReadBack::read_back))]
pub fn integer_reads_back<A: Allocator>(number: i32)
    ensures { written_number (text_of {A = A} (value.Integer number)) ≡ Some number }
{
    // only the contract names it
    let _number = number;
}
