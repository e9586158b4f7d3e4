//! How the calls of one family differ: the operator, the form, the cut and the elements, with their letters in names.

ghost use Rattle.std.specs.Prelude.{◌≡◌};
ghost use Rattle.call_table.specs.Letters.{bool_binary_label, comparison_label, int_binary_label, int_monoid_label, unary_label};
ghost use Rattle.call_table.specs.Letters.{cut_and_element_letters, form_letters};
ghost use Rattle.call_table.specs.Operators.{bool_binaries, comparisons, int_binaries, int_monoids, unaries};

use crate::labels::{Family, Label};

/// An operator on two integer vectors, element by element, whose result is an integer vector.
#[derive(Clone, Copy, Debug, PartialEq, Eq)]
pub enum IntBinary {
    /// One that is associative and has a unit, so that it scans and reduces too.
    Monoid(IntMonoid),
    /// The difference, wrapped to 32 bits.
    Sub,
    /// The quotient, truncated toward zero.
    Div,
    /// The remainder of that quotient, with the dividend's sign.
    Mod,
    /// The first, shifted left by the second; high bits are dropped.
    Lsh,
    /// The first, shifted right by the second; the sign is copied.
    Rsh,
}

/// An associative operator on integers that has a unit, by which two vectors are joined place by place, and one is scanned or
/// reduced.
#[derive(Clone, Copy, Debug, PartialEq, Eq)]
pub enum IntMonoid {
    /// The sum, wrapped to 32 bits.
    Add,
    /// The product, wrapped to 32 bits.
    Mul,
    /// The lesser of the two.
    Min,
    /// The greater of the two.
    Max,
    /// Bitwise and.
    And,
    /// Bitwise inclusive or.
    Ior,
    /// Bitwise exclusive or.
    Xor,
}

/// A comparison of two integer vectors, element by element, on signed numbers.
#[derive(Clone, Copy, Debug, PartialEq, Eq)]
pub enum Comparison {
    /// The first is greater.
    Greater,
    /// The first is less.
    Less,
    /// The first is greater, or they are equal.
    AtLeast,
    /// The first is less, or they are equal.
    AtMost,
    /// They are equal.
    Equal,
    /// They aren't equal.
    Unequal,
}

/// An operator on two booleans. All three are associative and have a unit, so that they scan and reduce too.
#[derive(Clone, Copy, Debug, PartialEq, Eq)]
pub enum BoolBinary {
    /// Both are true.
    And,
    /// At least one is true.
    Ior,
    /// Exactly one is true.
    Xor,
}

/// An operator on one vector, element by element.
#[derive(Clone, Copy, Debug, PartialEq, Eq)]
pub enum Unary {
    /// Each bit, or each boolean, inverted.
    Not,
    /// The same vector again.
    Copy,
}

/// The operators of each enum, each once, with its letters and its number if these are its own. A macro gets them in brackets
/// after the enum's name and before its other arguments. Those of `IntBinary` are only its own, without the monoids.
macro_rules! operators_of {
    (IntMonoid $then:ident $($more:tt)*) => {
        $then!(
            [IntMonoid (Add "add" 0) (Mul "mul" 1) (Min "min" 2) (Max "max" 3) (And "and" 4) (Ior "ior" 5) (Xor "xor" 6)]
            $($more)*
        )
    };
    (IntBinary $then:ident $($more:tt)*) => {
        $then!(
            [IntBinary (Sub "sub" 7) (Div "div" 8) (Mod "mod" 9) (Lsh "lsh" 10) (Rsh "rsh" 11)]
            $($more)*
        )
    };
    (Comparison $then:ident $($more:tt)*) => {
        $then!(
            [
                Comparison (Greater "grt" 12) (Less "les" 13) (AtLeast "geq" 14) (AtMost "leq" 15) (Equal "eql" 16)
                (Unequal "neq" 17)
            ]
            $($more)*
        )
    };
    (BoolBinary $then:ident $($more:tt)*) => { $then!([BoolBinary (And) (Ior) (Xor)] $($more)*) };
    (Unary $then:ident $($more:tt)*) => { $then!([Unary (Not "not" 18) (Copy "cpy" 19)] $($more)*) };
    (Form $then:ident $($more:tt)*) => { $then!([Form (Simple) (Back) (Select) (Default)] $($more)*) };
    (Element $then:ident $($more:tt)*) => { $then!([Element (Integer) (Boolean)] $($more)*) };
}

pub(crate) use operators_of;

/// The label of an operator, by a match; arms for others come first.
macro_rules! label {
    ([$of:ident $(($name:ident $letters:literal $number:literal))*] $operator:ident $($arm:tt)*) => {
        match $operator {
            $($arm)*
            $($of::$name => Label::new($letters, $number),)*
        }
    };
}

/// The operators of an enum as a slice.
macro_rules! slice {
    ([$of:ident $(($name:ident $($label:literal)*))*]) => { &[$($of::$name),*] };
}

/// The operators on two integers as a slice, from those that are monoids and the others.
macro_rules! int_slice {
    ([IntMonoid $(($name:ident $($label:literal)*))*]) => { operators_of!(IntBinary int_slice $($name)*) };
    ([IntBinary $(($other:ident $($label:literal)*))*] $($monoid:ident)*) => {
        &[$(IntBinary::Monoid(IntMonoid::$monoid),)* $(IntBinary::$other),*]
    };
}

impl Family for IntBinary {
    ghost label = { int_binary_label };

    ghost all = { int_binaries };

    fn label(self) -> Label {
        operators_of!(IntBinary label self IntBinary::Monoid(operator) => operator.label(),)
    }

    #[tactic(auto, unfolding(crate::specs::Operators::int_binaries, crate::specs::Operators::int_monoids))]
    fn all() -> &'static [IntBinary] {
        operators_of!(IntMonoid int_slice)
    }
}

impl Family for IntMonoid {
    ghost label = { int_monoid_label };

    ghost all = { int_monoids };

    fn label(self) -> Label {
        operators_of!(IntMonoid label self)
    }

    #[tactic(auto, unfolding(crate::specs::Operators::int_monoids))]
    fn all() -> &'static [IntMonoid] {
        operators_of!(IntMonoid slice)
    }
}

impl Family for Comparison {
    ghost label = { comparison_label };

    ghost all = { comparisons };

    fn label(self) -> Label {
        operators_of!(Comparison label self)
    }

    #[tactic(auto, unfolding(crate::specs::Operators::comparisons))]
    fn all() -> &'static [Comparison] {
        operators_of!(Comparison slice)
    }
}

impl Family for BoolBinary {
    ghost label = { bool_binary_label };

    ghost all = { bool_binaries };

    fn label(self) -> Label {
        match self {
            BoolBinary::And => IntMonoid::And.label(),
            BoolBinary::Ior => IntMonoid::Ior.label(),
            BoolBinary::Xor => IntMonoid::Xor.label(),
        }
    }

    #[tactic(auto, unfolding(crate::specs::Operators::bool_binaries))]
    fn all() -> &'static [BoolBinary] {
        operators_of!(BoolBinary slice)
    }
}

impl Family for Unary {
    ghost label = { unary_label };

    ghost all = { unaries };

    fn label(self) -> Label {
        operators_of!(Unary label self)
    }

    #[tactic(auto, unfolding(crate::specs::Operators::unaries))]
    fn all() -> &'static [Unary] {
        operators_of!(Unary slice)
    }
}

/// How a permute moves the elements of its source.
#[derive(Clone, Copy, Debug, PartialEq, Eq)]
pub enum Form {
    /// Each source element goes to the place that its index names.
    Simple,
    /// Each place of the result takes the source element that its index names.
    Back,
    /// The same as `Simple`, for only the places whose flag is true.
    Select,
    /// The same as `Simple`, into a copy of a vector of defaults.
    Default,
}

impl Form {
    /// The three letters with which a call of this form begins.
    pub(crate) fn letters(self) -> &'static str
        ensures { result.now ≡ form_letters self }
    {
        match self {
            Form::Simple => "smp",
            Form::Back => "bck",
            Form::Select => "sel",
            Form::Default => "def",
        }
    }
}

/// Whether a call takes its vectors whole or segment by segment.
#[derive(Clone, Copy, Debug, PartialEq, Eq)]
pub enum Cut {
    /// The vectors whole; in a call's name `u`, unsegmented.
    Flat,
    /// Segment by segment, as a descriptor cuts them; in a call's name `e`.
    Segmented,
}

/// What the elements of a call's vectors are.
#[derive(Clone, Copy, Debug, PartialEq, Eq)]
pub enum Element {
    /// Integers; in a call's name `z`.
    Integer,
    /// Booleans; in a call's name `b`.
    Boolean,
}

/// The last two letters of a call's name: how it takes its vectors, and what they hold.
pub(crate) fn cut_and_element(cut: Cut, element: Element) -> &'static str
    ensures { result.now ≡ cut_and_element_letters cut element }
{
    match (cut, element) {
        (Cut::Flat, Element::Integer) => "uz",
        (Cut::Flat, Element::Boolean) => "ub",
        (Cut::Segmented, Element::Integer) => "ez",
        (Cut::Segmented, Element::Boolean) => "eb",
    }
}
