//! The table of calls: the name of each, the kinds of its arguments, and the kinds of what it gives.

ghost use Rattle.std.specs.Prelude.{◌≡◌};
ghost use Rattle.call_table.specs.Calls.{spelling_of, operands_of, results_of};
ghost use Rattle.call_table.specs.Spellings.{bytes_of};

use crate::families::{Cut, Element};
use crate::kind::Kind;
use crate::kind::Kind::{Booleans, Descriptor, Integer, Integers};
use crate::labels::Family;
use crate::operands::{
    each, of_choose, of_distribute, of_extract, of_index, of_pack, of_permute, of_replace,
    of_vector, vector,
};
use crate::operation::Op;
use crate::spelling::{Spelling, named, whole};

/// A row of the table.
#[derive(Clone, Copy)]
pub(crate) struct Row {
    /// The call's name.
    pub name: Spelling,
    /// The kinds of the arguments that it takes, in the order of the script; none for `write`.
    pub operands: &'static [Kind],
    /// The kinds of the values that it gives, one for each name that it binds; none for `write`.
    pub gives: &'static [Kind],
}

/// A row of the table: a whole name or the parts of one, the arguments, and what the call gives.
macro_rules! row {
    ($name:literal, $operands:expr => $gives:expr) => {
        Row { name: whole($name), operands: $operands, gives: $gives }
    };
    ($letters:expr, $class:literal, $cut:expr, $element:expr, $operands:expr => $gives:expr) => {
        Row { name: named($letters, $class, $cut, $element), operands: $operands, gives: $gives }
    };
}

/// The call's row; inline, so that who reads a name does not make the rest.
#[inline]
pub(crate) fn row_of(op: Op) -> Row
    ensures name { bytes_of result.name ≡ spelling_of op }
    ensures operands { result.operands.now ≡ operands_of op }
    ensures gives { result.gives.now ≡ results_of op }
{
    let (flat, integer, boolean) = (Cut::Flat, Element::Integer, Element::Boolean);
    match op {
        Op::Input => row!("input", &[Integer] => &[Integers]),
        Op::Nested => row!("nested", &[Integer] => &[Integers, Descriptor]),
        Op::Ints2(by) =>
            row!(by.label().letters, "_w", flat, integer, &[Integers, Integers] => &[Integers]),
        Op::Ints1(by) => row!(by.label().letters, "_w", flat, integer, &[Integers] => &[Integers]),
        Op::Compare(by) =>
            row!(by.label().letters, "_w", flat, integer, &[Integers, Integers] => &[Booleans]),
        Op::Bools2(by) =>
            row!(by.label().letters, "_w", flat, boolean, &[Booleans, Booleans] => &[Booleans]),
        Op::Bools1(by) => row!(by.label().letters, "_w", flat, boolean, &[Booleans] => &[Booleans]),
        Op::Choose(of) => row!("sel", "_w", flat, of, of_choose(of) => vector(of)),
        Op::IntFromBool => row!("int", "_w", flat, boolean, &[Booleans] => &[Integers]),
        Op::BoolFromInt => row!("boo", "_w", flat, integer, &[Integers] => &[Booleans]),
        Op::Scan(by, cut) =>
            row!(by.label().letters, "_s", cut, integer, of_vector(cut, integer) => &[Integers]),
        Op::Reduce(by, cut) =>
            row!(by.label().letters, "_r", cut, integer, of_vector(cut, integer) => each(cut, integer)),
        Op::CheckedScan(cut) =>
            row!("tot", "_s", cut, integer, of_vector(cut, integer) => &[Integers]),
        Op::CheckedReduce(cut) =>
            row!("tot", "_r", cut, integer, of_vector(cut, integer) => each(cut, integer)),
        Op::BoolScan(by, cut) =>
            row!(by.label().letters, "_s", cut, boolean, of_vector(cut, boolean) => &[Booleans]),
        Op::BoolReduce(by, cut) =>
            row!(by.label().letters, "_r", cut, boolean, of_vector(cut, boolean) => each(cut, boolean)),
        Op::Permute(by, cut, of) =>
            row!(by.letters(), "_p", cut, of, of_permute(by, cut, of) => vector(of)),
        Op::Length(of) => row!("len", "_l", flat, of, of_vector(flat, of) => &[Integer]),
        Op::Count(cut) =>
            row!("cnt", "_l", cut, boolean, of_vector(cut, boolean) => each(cut, integer)),
        Op::Pack(cut, of) => row!("pck", "_l", cut, of, of_pack(cut, of) => vector(of)),
        Op::PackedLengths => row!("pck_fov", &[Booleans, Descriptor] => &[Descriptor]),
        Op::Distribute(cut, of) => row!("dis", "_v", cut, of, of_distribute(cut, of) => vector(of)),
        Op::Index(cut) => row!("ind", "_l", cut, integer, of_index(cut) => &[Integers]),
        Op::Extract(cut, of) => row!("ext", "_v", cut, of, of_extract(cut, of) => each(cut, of)),
        Op::Replace(cut, of) => row!("rep", "_v", cut, of, of_replace(cut, of) => vector(of)),
        Op::MakeDescriptor => row!("mke_fov", &[Integers] => &[Descriptor]),
        Op::DescriptorLengths => row!("len_fos", &[Descriptor] => &[Integers]),
        Op::Write => row!("write", &[] => &[]),
    }
}
