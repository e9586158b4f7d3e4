//! Faults: what is wrong with a script, an input or a call's arguments, and where.

ghost use Rattle.std.specs.Prelude.{◌≡◌, Some};

use std::fmt;

/// The kinds of faults, in the order of their numbers.
#[derive(Clone, Copy, Debug, PartialEq, Eq)]
pub enum FaultNo {
    /// The line has none of the forms of a line.
    BadLine = 1,
    /// No call has this name.
    UnknownCall,
    /// The call takes another number of arguments.
    WrongArgumentCount,
    /// The name is not bound.
    UnknownName,
    /// The argument is of another kind than the call takes.
    WrongKind,
    /// The number is malformed or does not fit 32 bits.
    BadNumber,
    /// Lengths that must agree differ.
    LengthMismatch,
    /// A divisor is 0.
    DivideByZero,
    /// A shift is outside 0 to 31.
    ShiftOutOfRange,
    /// An index is no place of what it points into.
    IndexOutOfRange,
    /// An earlier index of the permute is the same.
    IndexRepeated,
    /// A length or a count is negative.
    NegativeLength,
    /// A vector, a total or a count is above the limit.
    TooLong,
    /// No input has this number.
    NoSuchInput,
    /// A token of the input is no integer of 32 bits.
    BadInput,
    /// No more names may be bound.
    TooManyNames,
    /// The script has more bytes than it may have.
    ScriptTooLong,
    /// A sum that may not wrap does not fit 32 bits.
    Overflow,
}

/// The fault's name, as the code has it.
macro_rules! spelled {
    ($fault:expr; $($name:ident)*) => {
        match $fault {
            $(FaultNo::$name => stringify!($name),)*
        }
    };
}

impl FaultNo {
    ghost use Rattle.cvl_base.specs.Faults.{number_of, name_of};

    /// The number that the fault is printed with, from 1 to 18.
    pub fn number(self) -> u32
        ensures { result ≡ number_of self }
    {
        self as u32
    }

    /// The name that the fault is printed with.
    pub fn name(self) -> &'static str
        ensures { result.now ≡ name_of self }
    {
        spelled!(self;
            BadLine UnknownCall WrongArgumentCount UnknownName WrongKind BadNumber LengthMismatch
            DivideByZero ShiftOutOfRange IndexOutOfRange IndexRepeated NegativeLength TooLong
            NoSuchInput BadInput TooManyNames ScriptTooLong Overflow
        )
    }
}

impl fmt::Display for FaultNo {
    ghost use Rattle.cvl_base.specs.Faults.{number_text};

    ghost output = { λ number. Some (number_text number) };

    fn fmt<W: fmt::Write>(&self, f: &mut fmt::Formatter<W>) -> fmt::Result {
        let number = self.number();
        let name = self.name();
        write!(f, "fault {number} {name}")
    }
}

/// A fault with its place. It is shown as its number and name, and its place, if it has one.
#[derive(Clone, Copy, Debug, PartialEq, Eq)]
pub struct Fault {
    /// Which fault it is.
    pub number: FaultNo,
    /// The element, index, token or segment at fault, counted from 0; none if it is the whole call or line.
    pub place: Option<u32>,
}

impl Fault {
    ghost use Rattle.cvl_base.specs.Faults.{fault, fault_at};

    /// A fault of the whole call or line.
    pub fn new(number: FaultNo) -> Fault
        ensures { result ≡ fault number }
    {
        Fault {
            number,
            place: None,
        }
    }

    /// A fault at a place, counted from 0.
    pub fn at(number: FaultNo, place: u32) -> Fault
        ensures { result ≡ fault_at number place }
    {
        Fault {
            number,
            place: Some(place),
        }
    }
}

impl fmt::Display for Fault {
    ghost use Rattle.cvl_base.specs.Faults.{fault_text};

    ghost output = { λ fault. Some (fault_text fault) };

    fn fmt<W: fmt::Write>(&self, f: &mut fmt::Formatter<W>) -> fmt::Result {
        let number = self.number;
        match self.place {
            None => write!(f, "{number}"),
            Some(place) => write!(f, "{number} at {place}"),
        }
    }
}
