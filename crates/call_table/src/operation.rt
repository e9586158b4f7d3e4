//! The calls of a script by families, with the operands that each takes and what it gives.

ghost use Rattle.std.specs.Prelude.{◌≡◌};
ghost use Rattle.call_table.specs.Calls.{operands_of, results_of, is_write, binds_of, takes_of, accepts_of, write_accepts};
ghost use Rattle.call_table.specs.Calls.{same_kind};

use crate::families::{BoolBinary, Comparison, Cut, Element, Form, IntBinary, IntMonoid, Unary};
use crate::kind::Kind;
use crate::table::row_of;

/// What a line of a script asks for: one call of the library, or `write`.
///
/// Each family's calls take and give the same kinds of values, and are performed by one kernel.
#[derive(Clone, Copy, PartialEq, Eq)]
pub enum Op {
    /// `input`: the vector of an input, by its number from 1.
    Input,
    /// `nested`: the vector of a nested input and its descriptor, by the input's number from 1.
    Nested,
    /// `add_wuz` and its like: an operator on two integer vectors, element by element.
    Ints2(IntBinary),
    /// `not_wuz`, `cpy_wuz`: an operator on one integer vector, element by element.
    Ints1(Unary),
    /// `grt_wuz` and its like: a comparison of two integer vectors, element by element.
    Compare(Comparison),
    /// `and_wub` and its like: an operator on two boolean vectors, element by element.
    Bools2(BoolBinary),
    /// `not_wub`, `cpy_wub`: an operator on one boolean vector, element by element.
    Bools1(Unary),
    /// `sel_wuz`, `sel_wub`: the first vector's element where the flag is true, else the second's.
    Choose(Element),
    /// `int_wub`: 1 for true and 0 for false.
    IntFromBool,
    /// `boo_wuz`: true for each number but 0.
    BoolFromInt,
    /// `add_suz` and its like: the exclusive scan of an integer vector.
    Scan(IntMonoid, Cut),
    /// `add_ruz` and its like: all elements of an integer vector, or of each segment, joined.
    Reduce(IntMonoid, Cut),
    /// `tot_suz`, `tot_sez`: the exclusive scan of an integer vector by sums that don't wrap.
    CheckedScan(Cut),
    /// `tot_ruz`, `tot_rez`: the sum of an integer vector, or of each segment, that doesn't wrap.
    CheckedReduce(Cut),
    /// `and_sub` and its like: the exclusive scan of a boolean vector.
    BoolScan(BoolBinary, Cut),
    /// `and_rub` and its like: all elements of a boolean vector, or of each segment, joined.
    BoolReduce(BoolBinary, Cut),
    /// `smp_puz` and its like: the elements of a source moved by an index vector.
    Permute(Form, Cut, Element),
    /// `len_luz`, `len_lub`: the number of elements.
    Length(Element),
    /// `cnt_lub`, `cnt_leb`: the number of true flags.
    Count(Cut),
    /// `pck_luz` and its like: the elements whose flag is true, in order.
    Pack(Cut, Element),
    /// `pck_fov`: the descriptor of what a segmented pack keeps.
    PackedLengths,
    /// `dis_vuz` and its like: copies of one value.
    Distribute(Cut, Element),
    /// `ind_luz`, `ind_lez`: numbers from a first one on, by a stride.
    Index(Cut),
    /// `ext_vuz` and its like: the element at an index.
    Extract(Cut, Element),
    /// `rep_vuz` and its like: the vector with the element at an index changed.
    Replace(Cut, Element),
    /// `mke_fov`: the descriptor with these lengths.
    MakeDescriptor,
    /// `len_fos`: the lengths of a descriptor.
    DescriptorLengths,
    /// `write`: the text of a value; a line of its own form, and no call.
    Write,
}

impl Op {
    /// The kinds of the arguments that the call takes, in the order of the script.
    ///
    /// Empty for `write`, whose arguments `takes` and `accepts` describe.
    pub fn operands(self) -> &'static [Kind]
        ensures { result.now ≡ operands_of self }
    {
        row_of(self).operands
    }

    /// The kinds of the values that the call gives, one for each name that its line binds; `write` gives none.
    pub fn gives(self) -> &'static [Kind]
        ensures { result.now ≡ results_of self }
    {
        row_of(self).gives
    }

    /// How many names stand before `=` in its line, which it binds: two for `nested`, one for every other call, and none for
    /// `write`.
    pub fn binds(self) -> usize
        ensures { result ≡ binds_of self }
    {
        self.gives().len()
    }

    /// Whether it takes `count` arguments: a call one for each operand, `write` one or two.
    pub fn takes(self, count: usize) -> bool
        ensures { result ≡ takes_of self count }
    {
        if self.is_write() {
            count == 1 || count == 2
        } else {
            count == self.operands().len()
        }
    }

    /// Whether, among `count` arguments, the one at `place`, counted from 0, may have this kind.
    ///
    /// A call takes at each place the kind of its operand there. `write` takes one value of any kind, or a vector and then a
    /// descriptor.
    pub fn accepts(self, count: usize, place: usize, kind: Kind) -> bool
        ensures { result ≡ accepts_of self count place kind }
    {
        if self.is_write() {
            accepted_by_write(count, place, kind)
        } else {
            match self.operands().get(place) {
                Some(wanted) => is_same_kind(*wanted, kind),
                None => false,
            }
        }
    }

    /// Whether it is `write`, which is no call.
    pub fn is_write(self) -> bool
        ensures { result ≡ is_write self }
    {
        matches!(self, Op::Write)
    }
}

/// Whether two kinds are the same.
fn is_same_kind(a: Kind, b: Kind) -> bool
    ensures { result ≡ same_kind a b }
{
    match (a, b) {
        (Kind::Integers, Kind::Integers) => true,
        (Kind::Booleans, Kind::Booleans) => true,
        (Kind::Descriptor, Kind::Descriptor) => true,
        (Kind::Integer, Kind::Integer) => true,
        (Kind::Boolean, Kind::Boolean) => true,
        _ => false,
    }
}

/// What `Op::accepts` says of `write`.
fn accepted_by_write(count: usize, place: usize, kind: Kind) -> bool
    ensures { result ≡ write_accepts count place kind }
{
    (count == 1 && place == 0)
        || (count == 2 && place == 0 && matches!(kind, Kind::Integers | Kind::Booleans))
        || (count == 2 && place == 1 && matches!(kind, Kind::Descriptor))
}
