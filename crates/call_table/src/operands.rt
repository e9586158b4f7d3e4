//! The kinds of what calls take and give, if a family's calls differ in them: by how they take their vectors, or what these hold.

ghost use Rattle.std.specs.Prelude.{◌≡◌, ◌∷◌, []};
ghost use Rattle.call_table.specs.Calls.{operands_of, cut_by, each_of, vector_of};
ghost use Rattle.call_table.specs.declared.operation.Op.TheVariants as op;

use crate::families::{Cut, Element, Form};
use crate::kind::Kind;

/// A kind of a list: `single` is that of one element of this type, and `vector` that of a vector of them.
macro_rules! kind {
    ($of:ident single) => { Kind::$of };
    (Integer vector) => { Kind::Integers };
    (Boolean vector) => { Kind::Booleans };
    ($of:ident $kind:ident) => { Kind::$kind };
}

/// The kinds of a call that takes its vectors whole, or of one that takes them by segments, for elements of either type.
macro_rules! kinds {
    ($cut:expr, $element:expr; $($flat:ident)*; $($segmented:ident)*) => {
        match ($cut, $element) {
            (Cut::Flat, Element::Integer) => &[$(kind!(Integer $flat)),*],
            (Cut::Flat, Element::Boolean) => &[$(kind!(Boolean $flat)),*],
            (Cut::Segmented, Element::Integer) => &[$(kind!(Integer $segmented)),*],
            (Cut::Segmented, Element::Boolean) => &[$(kind!(Boolean $segmented)),*],
        }
    };
}

/// One value for the whole vector, or one for each segment.
pub(crate) fn each(cut: Cut, element: Element) -> &'static [Kind]
    ensures { result.now ≡ each_of cut element ∷ [] }
{
    kinds!(cut, element; single; vector)
}

/// A vector.
pub(crate) fn vector(element: Element) -> &'static [Kind]
    ensures { result.now ≡ vector_of element ∷ [] }
{
    each(Cut::Segmented, element)
}

/// Flags, and the two vectors to choose from.
pub(crate) fn of_choose(element: Element) -> &'static [Kind]
    ensures { result.now ≡ operands_of (op.Choose element) }
{
    match element {
        Element::Integer => &[Kind::Booleans, Kind::Integers, Kind::Integers],
        Element::Boolean => &[Kind::Booleans, Kind::Booleans, Kind::Booleans],
    }
}

/// A vector: to be scanned or reduced, or whose elements or flags are counted.
pub(crate) fn of_vector(cut: Cut, element: Element) -> &'static [Kind]
    ensures { result.now ≡ vector_of element ∷ cut_by cut }
{
    kinds!(cut, element; vector; vector Descriptor)
}

/// A source and an index vector; besides, flags in a select permute, and defaults in a default one. Two descriptors if the result
/// has segments of its own lengths, as the index has in a back permute or the defaults in a default one.
pub(crate) fn of_permute(form: Form, cut: Cut, element: Element) -> &'static [Kind]
    ensures { result.now ≡ operands_of (op.Permute form cut element) }
{
    match form {
        Form::Simple => kinds!(cut, element; vector Integers; vector Integers Descriptor),
        Form::Back => kinds!(cut, element; vector Integers; vector Integers Descriptor Descriptor),
        Form::Select =>
            kinds!(cut, element; vector Integers Booleans; vector Integers Booleans Descriptor),
        Form::Default =>
            kinds!(cut, element; vector Integers vector; vector Integers vector Descriptor Descriptor),
    }
}

/// Values and flags.
pub(crate) fn of_pack(cut: Cut, element: Element) -> &'static [Kind]
    ensures { result.now ≡ operands_of (op.Pack cut element) }
{
    kinds!(cut, element; vector Booleans; vector Booleans Descriptor)
}

/// A value and a count, or one value for each segment.
pub(crate) fn of_distribute(cut: Cut, element: Element) -> &'static [Kind]
    ensures { result.now ≡ operands_of (op.Distribute cut element) }
{
    kinds!(cut, element; single Integer; vector Descriptor)
}

/// A first number, a stride and a count, or a first number and a stride for each segment.
pub(crate) fn of_index(cut: Cut) -> &'static [Kind]
    ensures { result.now ≡ operands_of (op.Index cut) }
{
    match cut {
        Cut::Flat => &[Kind::Integer, Kind::Integer, Kind::Integer],
        Cut::Segmented => &[Kind::Integers, Kind::Integers, Kind::Descriptor],
    }
}

/// A vector and an index, or one index for each segment.
pub(crate) fn of_extract(cut: Cut, element: Element) -> &'static [Kind]
    ensures { result.now ≡ operands_of (op.Extract cut element) }
{
    kinds!(cut, element; vector Integer; vector Integers Descriptor)
}

/// A vector, an index and a value, or one index and one value for each segment.
pub(crate) fn of_replace(cut: Cut, element: Element) -> &'static [Kind]
    ensures { result.now ≡ operands_of (op.Replace cut element) }
{
    kinds!(cut, element; vector Integer single; vector Integers vector Descriptor)
}
