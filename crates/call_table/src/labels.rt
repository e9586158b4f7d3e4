//! How callers name an operator: letters in scripts, and a number in C.

ghost use Rattle.std.specs.Prelude.{◌≡◌, List, Some, find, nat_eq};
ghost use Rattle.std.specs.List.{IsDistinct};
ghost use Rattle.call_table.specs.declared.families.BoolBinary.{BoolBinary};
ghost use Rattle.call_table.specs.declared.families.Comparison.{Comparison};
ghost use Rattle.call_table.specs.declared.families.IntBinary.{IntBinary};
ghost use Rattle.call_table.specs.declared.families.IntMonoid.{IntMonoid};
ghost use Rattle.call_table.specs.declared.families.Unary.{Unary};
ghost use Rattle.call_table.specs.Letters.{OperatorLabel, bool_binary_label, comparison_label, int_binary_label};
ghost use Rattle.call_table.specs.Letters.{int_monoid_label, unary_label};
ghost use Rattle.call_table.specs.Operators.{bool_binary_of, comparison_of, has_number, int_binary_of, int_monoid_of, numbers};
ghost use Rattle.call_table.specs.Operators.{unary_of};

/// How an operator is named.
#[derive(Clone, Copy, Debug)]
pub struct Label {
    /// The three letters with which its calls begin.
    pub letters: &'static str,
    /// Its number, which never changes.
    pub number: u32,
}

impl Label {
    /// A label of these letters and this number.
    pub(crate) fn new(letters: &'static str, number: u32) -> Label
        ensures letters { result.letters.now ≡ letters.now }
        ensures number { result.number ≡ number }
    {
        Label { letters, number }
    }
}

/// A family of operators, each of which has a label.
pub trait Family: Copy + 'static {
    ghost label: { Self → OperatorLabel };

    ghost all: { List Self };

    /// The letters and the number of the operator.
    fn label(self) -> Label
        ensures letters { result.letters.now ≡ (label self).letters }
        ensures number { result.number ≡ (label self).number };

    /// All operators, each once.
    fn all() -> &'static [Self]
        ensures { result.now ≡ all };
}

/// The operator of the family that has the number, or none if none has it.
pub fn numbered<F: Family>(number: u32) -> Option<F>
    ensures { result ≡ find (has_number F.label number) F.all }
{
    F::all()
        .iter()
        .copied()
        .find(|operator| operator.label().number == number)
}

/// How the numbers of operators relate, for code that builds on the table: each names its operator in its family; and if an
/// operator on two integers, a comparison or an operator on one vector has a number, no other has it. An operator on booleans has
/// that of one on integers, by its definition.
#[tactic(auto, using(crate::proofs::Labelled::int_binary_read, crate::proofs::Labelled::int_monoid_read, crate::proofs::Labelled::comparison_read, crate::proofs::Labelled::bool_binary_read, crate::proofs::Labelled::unary_read, crate::proofs::Labelled::numbers_differ))]
pub fn know_labels()
    ensures int_binaries { (operator : IntBinary) → int_binary_of (int_binary_label operator).number ≡ Some operator }
    ensures int_monoids { (operator : IntMonoid) → int_monoid_of (int_monoid_label operator).number ≡ Some operator }
    ensures comparisons { (operator : Comparison) → comparison_of (comparison_label operator).number ≡ Some operator }
    ensures bool_binaries { (operator : BoolBinary) → bool_binary_of (bool_binary_label operator).number ≡ Some operator }
    ensures unaries { (operator : Unary) → unary_of (unary_label operator).number ≡ Some operator }
    ensures numbers_differ { IsDistinct nat_eq numbers }
{}
