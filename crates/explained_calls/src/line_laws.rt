//! How the words for lines with a fault relate to the grammar of lines.

ghost use Rattle.std.specs.Prelude.{◌≡◌, ℕ, Err, List, false, is_some};
ghost use Rattle.cvl_base.specs.declared.fault.Fault.{Fault};
ghost use Rattle.line_reader.specs.Lines.{call_of};
ghost use Rattle.line_reader.specs.Numbers.{is_empty};
ghost use Rattle.explained_calls.specs.LineFaultNumbers.{ends_with, is_bad_line};
ghost use Rattle.explained_calls.specs.LineFaults.{line_fault_words};
ghost use Rattle.explained_calls.specs.Misplaced.{hint_of};
ghost use Rattle.explained_calls.specs.PlacedTokens.{placed_tokens};

use cvl_base::Memory;

/// A place where a line breaks the form of a line is found exactly if the line has the fault `BadLine`.
#[tactic(auto, using(crate::proofs::LineLaws::hint_exactly))]
pub fn know_hints<A: Memory>()
    ensures { (line : List ℕ) → ends_with is_bad_line (call_of {A = A} line) ≡ is_some (hint_of (placed_tokens line)) }
{}

/// Each fault of a line by itself has a text.
pub fn know_texts<A: Memory>()
    ensures { (line : List ℕ) (f : Fault) → call_of {A = A} line ≡ Err f → is_empty (line_fault_words line f.number) ≡ false }
{}
