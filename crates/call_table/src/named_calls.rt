//! The call that a name means: which calls there are, and the one that is spelled as a word.

ghost use Rattle.std.specs.Prelude.{◌≡◌, ◌≢◌, ◌++◌, ℕ, List, Some, None, false, bytes_eq, find};
ghost use Rattle.std.specs.List.{AllByRecursion};
ghost use Rattle.call_table.specs.declared.operation.Op.{Op};
ghost use Rattle.call_table.specs.Calls.{spelling_of, is_write};
ghost use Rattle.call_table.specs.Spellings.{GoesOn, bool_calls, cut_calls, elementwise_calls, int_calls};
ghost use Rattle.call_table.specs.Spellings.{is_spelled, op_of, other_calls};

use crate::families::{
    BoolBinary, Comparison, Cut, Element, Form, IntBinary, IntMonoid, Unary, cut_and_element,
    operators_of,
};
use crate::operation::Op;

/// How many letters name an operator.
const OPERATOR_LETTERS: usize = 3;

impl Op {
    /// Whether a word is the name of this call.
    #[tactic(auto, using(crate::proofs::Joined::joined))]
    fn is_spelled(self, word: &[u8]) -> bool
        ensures { result ≡ is_spelled word.now self }
    {
        let spelling = self.spelling();
        match word.strip_prefix(spelling.operator.as_bytes()) {
            Some(rest) => is_joined(rest, spelling.class, spelling.cut_and_element),
            None => false,
        }
    }
}

/// Whether a word is one text and then another.
#[tactic(auto, using(crate::proofs::Joined::joined))]
fn is_joined(word: &[u8], front: &str, back: &str) -> bool
    ensures { result ≡ bytes_eq word.now (front.now ++ back.now) }
{
    match word.strip_prefix(front.as_bytes()) {
        Some(rest) => rest == back.as_bytes(),
        None => false,
    }
}

/// Calls in an array: one of each family for each operator of an enum, and then others.
macro_rules! calls {
    ([$($done:tt)*] $family:ident $parts:tt by $of:ident, $($rest:tt)*) => {
        operators_of!($of calls [$($done)*] $family $parts $($rest)*)
    };
    ([$of:ident $(($operator:ident $($label:literal)*))*] [$($done:tt)*] $family:ident $parts:tt $($rest:tt)*) => {
        calls!([$($done)* $(call!($family $of $operator $parts),)*] $($rest)*)
    };
    ([$($done:tt)*] $($other:expr),*) => { [$($done)* $($other),*] };
}

/// A call of a family: the operator, as it is or as one of another enum, and how else the family's calls differ.
macro_rules! call {
    ($family:ident $of:ident $operator:ident ($($part:expr),*)) => { Op::$family($of::$operator $(, $part)*) };
    ($family:ident $of:ident $operator:ident [$as:path]) => { Op::$family($as($of::$operator)) };
}

/// The first of these calls whose name is the word.
fn first_spelled(calls: &[Op], word: &[u8]) -> Option<Op>
    ensures { result ≡ find (is_spelled word.now) calls.now }
{
    calls.iter().copied().find(|op| op.is_spelled(word))
}

/// The same for calls of one class that are cut the same and have the same elements, so that one look at what follows the letters
/// of the operator settles it for a word of another class.
#[tactic(auto, using(crate::proofs::Joined::joined))]
fn first_of_class(calls: &[Op], class: &str, cut_and_element: &str, word: &[u8]) -> Option<Op>
    requires { AllByRecursion (GoesOn (class.now ++ cut_and_element.now)) calls.now }
    ensures { result ≡ find (is_spelled word.now) calls.now }
{
    let operator = OPERATOR_LETTERS.min(word.len());
    if is_joined(&word[operator..], class, cut_and_element) {
        first_spelled(calls, word)
    } else {
        None
    }
}

/// The elementwise call with this name.
fn elementwise_named(word: &[u8]) -> Option<Op>
    ensures { result ≡ find (is_spelled word.now) elementwise_calls }
{
    let of_ints = calls![
        [] Ints2[IntBinary::Monoid] by IntMonoid, Ints2() by IntBinary, Ints1() by Unary,
        Compare() by Comparison, Op::Choose(Element::Integer), Op::BoolFromInt
    ];
    let of_bools = calls![
        [] Bools2() by BoolBinary, Bools1() by Unary,
        Op::Choose(Element::Boolean), Op::IntFromBool
    ];
    first_of_class(&of_ints, "_w", "uz", word).or(first_of_class(&of_bools, "_w", "ub", word))
}

/// Those of these calls that copy, pick or change single elements, whole or by segments.
macro_rules! element_calls {
    ($cut:expr, $element:expr) => {
        [Op::Distribute($cut, $element), Op::Extract($cut, $element), Op::Replace($cut, $element)]
    };
}

/// The other call on integers with this name, of those that take their vectors whole, or of those that take them by segments.
fn int_call_named(cut: Cut, word: &[u8]) -> Option<Op>
    ensures { result ≡ find (is_spelled word.now) (int_calls cut) }
{
    let integer = Element::Integer;
    let letters = cut_and_element(cut, integer);
    let scans = calls![[] Scan(cut) by IntMonoid, Op::CheckedScan(cut)];
    let reduces = calls![[] Reduce(cut) by IntMonoid, Op::CheckedReduce(cut)];
    let permutes = calls![[] Permute(cut, integer) by Form,];
    let others = [Op::Pack(cut, integer), Op::Index(cut)];
    first_of_class(&scans, "_s", letters, word)
        .or(first_of_class(&reduces, "_r", letters, word))
        .or(first_of_class(&permutes, "_p", letters, word))
        .or(first_of_class(&element_calls!(cut, integer), "_v", letters, word))
        .or(first_of_class(&others, "_l", letters, word))
}

/// The same on booleans.
fn bool_call_named(cut: Cut, word: &[u8]) -> Option<Op>
    ensures { result ≡ find (is_spelled word.now) (bool_calls cut) }
{
    let boolean = Element::Boolean;
    let letters = cut_and_element(cut, boolean);
    let scans = calls![[] BoolScan(cut) by BoolBinary,];
    let reduces = calls![[] BoolReduce(cut) by BoolBinary,];
    let permutes = calls![[] Permute(cut, boolean) by Form,];
    let others = [Op::Pack(cut, boolean), Op::Count(cut)];
    first_of_class(&scans, "_s", letters, word)
        .or(first_of_class(&reduces, "_r", letters, word))
        .or(first_of_class(&permutes, "_p", letters, word))
        .or(first_of_class(&element_calls!(cut, boolean), "_v", letters, word))
        .or(first_of_class(&others, "_l", letters, word))
}

/// The call with this name of those that take their vectors whole, or of those that take them by segments.
fn cut_call_named(cut: Cut, word: &[u8]) -> Option<Op>
    ensures { result ≡ find (is_spelled word.now) (cut_calls cut) }
{
    int_call_named(cut, word).or(bool_call_named(cut, word))
}

/// The call with this name that reads an input or a length, or makes or reads a descriptor.
#[tactic(auto, unfolding(crate::specs::Spellings::elements))]
fn other_call_named(word: &[u8]) -> Option<Op>
    ensures { result ≡ find (is_spelled word.now) other_calls }
{
    let calls = calls![
        [] Length() by Element,
        Op::Input, Op::Nested, Op::PackedLengths, Op::MakeDescriptor, Op::DescriptorLengths
    ];
    first_spelled(&calls, word)
}

/// The call with this name, or none if no call has it; `write` is no call.
pub fn op_of(word: &[u8]) -> Option<Op>
    ensures { result ≡ op_of word.now }
{
    match elementwise_named(word) {
        None => match cut_call_named(Cut::Flat, word) {
            None => cut_call_named(Cut::Segmented, word).or(other_call_named(word)),
            found => found,
        },
        found => found,
    }
}

/// How reading a name and spelling a call relate, for code that builds on the table.
#[tactic(auto, using(crate::proofs::Spelled::read_back, crate::proofs::SpelledLaws::read_spelled, crate::proofs::SpelledLaws::read_no_write, crate::proofs::SpelledLaws::unread))]
pub fn know_names()
    ensures every_call_reads_back { (op : Op) → is_write op ≡ false → op_of (spelling_of op) ≡ Some op }
    ensures read_is_spelled { (word : List ℕ) → (op : Op) → op_of word ≡ Some op → spelling_of op ≡ word }
    ensures write_is_not_read { (word : List ℕ) → (op : Op) → op_of word ≡ Some op → is_write op ≡ false }
    ensures unread_is_no_call { (word : List ℕ) → (op : Op) → op_of word ≡ None → is_write op ≡ false → spelling_of op ≢ word }
{}
