//! The five kinds of values.

/// What a value of a script is: each argument and each result of a call has one of these kinds.
#[derive(Clone, Copy, Debug, PartialEq, Eq)]
pub enum Kind {
    /// A vector of 32-bit integers.
    Integers,
    /// A vector of booleans.
    Booleans,
    /// A descriptor: the lengths of a vector's segments.
    Descriptor,
    /// A single integer.
    Integer,
    /// A single boolean.
    Boolean,
}
