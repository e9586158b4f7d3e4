//! The names of the calls, each in its parts.

ghost use Rattle.std.specs.Prelude.{◌≡◌, Some};
ghost use Rattle.call_table.specs.Letters.{call_name_of};
ghost use Rattle.call_table.specs.Calls.{spelling_of};
ghost use Rattle.call_table.specs.Spellings.{bytes_of};

use crate::families::{Cut, Element, cut_and_element};
use crate::operation::Op;
use crate::table::row_of;
use std::fmt;

/// A call's name in its parts, which `Display` writes in order.
#[derive(Clone, Copy, Debug)]
pub struct Spelling {
    /// The letters of the operator, for example `add`, or a whole name.
    pub operator: &'static str,
    /// The letter of the class, for example `_w`, or nothing after a whole name.
    pub class: &'static str,
    /// How the call takes its vectors and what they hold, for example `uz`, or nothing after a whole name.
    pub cut_and_element: &'static str,
}

impl Op {
    /// The name of the call, as it stands in a script.
    pub fn spelling(self) -> Spelling
        ensures { bytes_of result ≡ spelling_of self }
    {
        row_of(self).name
    }
}

/// A name without parts.
pub(crate) fn whole(name: &'static str) -> Spelling
    ensures { bytes_of result ≡ name.now }
{
    Spelling {
        operator: name,
        class: "",
        cut_and_element: "",
    }
}

/// A name of three parts.
pub(crate) fn named(
    operator: &'static str,
    class: &'static str,
    cut: Cut,
    element: Element,
) -> Spelling
    ensures { bytes_of result ≡ call_name_of operator.now class.now cut element }
{
    Spelling {
        operator,
        class,
        cut_and_element: cut_and_element(cut, element),
    }
}

impl fmt::Display for Spelling {
    ghost output = { λ spelling. Some (bytes_of spelling) };

    fn fmt<W: fmt::Write>(&self, f: &mut fmt::Formatter<W>) -> fmt::Result {
        write!(f, "{}{}{}", self.operator, self.class, self.cut_and_element)
    }
}

/// A call is shown by its name, for example `add_wuz`.
impl fmt::Debug for Op {
    fn fmt<W: fmt::Write>(&self, f: &mut fmt::Formatter<W>) -> fmt::Result {
        fmt::Display::fmt(&self.spelling(), f)
    }
}
