//! Worked nested texts, and what a nested text is.

ghost use Rattle.std.specs.Prelude.{◌≡◌, ◌≤◌, ℕ, ℤ, List, [], ◌∷◌, length, sum, codes, Ok, Err, pos};
ghost use Rattle.cvl_base.specs.declared.fault.FaultNo.TheVariants.{BadInput};
ghost use Rattle.cvl_base.specs.Faults.{fault_at};
ghost use Rattle.cvl_base.specs.Limits.{most_elements};
ghost use Rattle.call_reader.specs.Inputs.{input_of};
ghost use Rattle.call_reader.specs.NestedTexts.{nested_of, IsNestedText, IsWithin32, read_again};

/// Worked nested texts. It does nothing: its contract is what the definition says of them.
pub fn worked_nested_texts()
    ensures three_lists { nested_of (codes "[[1 2] [] [3]]") ≡ Ok (pos 1 ∷ pos 2 ∷ pos 3 ∷ [], 2 ∷ 0 ∷ 1 ∷ []) }
    ensures number_between_lists { nested_of (codes "[[1 2] [] 3]") ≡ Err (fault_at BadInput 7) }
    ensures no_outer_end { nested_of (codes "[[1 2]") ≡ Err (fault_at BadInput 5) }
    ensures more_behind { nested_of (codes "[[1]] 2") ≡ Err (fault_at BadInput 5) }
    ensures above_range { nested_of (codes "[[2147483648]]") ≡ Err (fault_at BadInput 2) }
    ensures no_brackets { nested_of (codes "1 2") ≡ Err (fault_at BadInput 0) }
    ensures empty { nested_of [] ≡ Err (fault_at BadInput 0) }
    ensures no_lists { nested_of (codes "[]") ≡ Ok ([], []) }
    ensures no_white_space { nested_of (codes "[[5][1]]") ≡ Ok (pos 5 ∷ pos 1 ∷ [], 1 ∷ 1 ∷ []) }
    ensures plus_sign { nested_of (codes "[[+2]]") ≡ Err (fault_at BadInput 2) }
    ensures closing_first { nested_of (codes "]") ≡ Err (fault_at BadInput 0) }
    ensures list_in_list { nested_of (codes "[[1 [2]]]") ≡ Err (fault_at BadInput 3) }
{}

/// What a nested text is: the grammar gives a vector and lengths exactly of a nested text of these, and a nested text has one
/// such pair only. It does nothing: its contract says so of the definitions, for every list of bytes.
pub fn nested_text_laws()
    ensures read { (bytes : List ℕ) (xs : List ℤ) (lengths : List ℕ) → IsNestedText bytes xs lengths
        → nested_of bytes ≡ Ok (xs, lengths) }
    ensures no_other { (bytes : List ℕ) (xs : List ℤ) (lengths : List ℕ) → nested_of bytes ≡ Ok (xs, lengths)
        → IsNestedText bytes xs lengths }
    ensures one_pair { (bytes : List ℕ) (xs ys : List ℤ) (lengths others : List ℕ) → IsNestedText bytes xs lengths
        → IsNestedText bytes ys others → (xs ≡ ys) × (lengths ≡ others) }
{}

/// A list of numbers is no nested text: if the grammar of an input gives numbers, that of a nested text gives `BadInput` at 0. It
/// does nothing: its contract says so of the definitions, for every list of bytes.
pub fn flat_is_no_nest()
    ensures { (bytes : List ℕ) (numbers : List ℤ) → input_of bytes ≡ Ok numbers → nested_of bytes ≡ Err (fault_at BadInput 0) }
{}

/// The text of a vector's nest, read as a nested text, is that vector and the nest's lengths, within the limits. It does
/// nothing: its contract says so of the definitions.
#[tactic(auto, using(crate::proofs::NestedBack::nest_read_back))]
pub fn nest_reads_back()
    ensures { (lengths : List ℕ) (xs : List ℤ) → IsWithin32 xs → sum lengths ≡ length xs → length xs ≤ most_elements
        → length lengths ≤ most_elements → read_again lengths xs ≡ Ok (xs, lengths) }
{}
