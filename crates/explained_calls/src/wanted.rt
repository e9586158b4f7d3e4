//! What a line of a script may want at a place.

/// What may stand at a place of a line.
#[derive(Clone, Copy, Debug, PartialEq, Eq)]
pub enum Wanted {
    /// A name.
    Name,
    /// `=`, or a second name.
    EqualsOrName,
    /// A second name that is not the first.
    OtherName,
    /// `=`.
    Equals,
    /// The name of a call.
    Call,
    /// An argument of a call: a name, a number, `T` or `F`.
    Argument,
}

/// Why a token may not stand where something else is wanted.
#[derive(Clone, Copy, Debug, PartialEq, Eq)]
pub enum Reason {
    /// It is not what is wanted, and no more can be said.
    Other,
    /// It is `write`, `T` or `F`, and none of these can be a name.
    Reserved,
    /// It would be a name if it had fewer than these bytes.
    TooLong(usize),
    /// It has a byte that names do not have, or begins with another one than a letter.
    NoName,
    /// It has a parenthesis or a comma.
    Parenthesis,
    /// The line begins with a byte order mark, and so does the token.
    ByteOrderMark,
}

/// Where a line breaks the form of a line, what may stand there, and why what stands there may not.
#[derive(Clone, Copy, Debug, PartialEq, Eq)]
pub struct Hint {
    /// The place of the first byte that may not stand there, counted from 0, or the place after the last token.
    pub place: usize,
    /// Whether the line ends too early.
    pub ends: bool,
    /// What may stand there.
    pub wanted: Wanted,
    /// Why the token there may not.
    pub reason: Reason,
}
