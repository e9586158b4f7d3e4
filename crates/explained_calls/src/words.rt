//! Sentences made of parts.

ghost use Rattle.std.specs.Prelude.{◌++◌, [], if◌then◌else◌};
ghost use Rattle.std.specs.Option.{option_map_or};
ghost use Rattle.explained_calls.specs.Sentences.{counted, indented};

use cvl_base::{Memory, NoResources};
use itoa::{Buffer, Integer};

/// A part of a sentence.
pub trait Words {
    ghost use Rattle.std.specs.Prelude.{ℕ, List, ◌≡◌, ◌++◌, OnOk};

    ghost words: { Self → List ℕ };

    /// Appends it to a text.
    fn put<A: Memory>(&self, text: &mut Vec<u8, A>) -> Result<(), NoResources>
        ensures { OnOk result (text.new.items ≡ text.old.items ++ words self.now) };
}

/// Parts of a sentence, one after another.
#[macro_export]
macro_rules! said {
    ($part:expr) => { $part };
    ($first:expr, $second:expr $(, $other:expr)*) => { $crate::said!(($first, $second) $(, $other)*) };
}

/// Bytes as they are.
impl<'a> Words for &'a [u8] {
    ghost words = { λ bytes. bytes.now };

    fn put<A: Memory>(&self, text: &mut Vec<u8, A>) -> Result<(), NoResources> {
        Ok(text.extend_from_slice(self)?)
    }
}

impl<'a, const N: usize> Words for &'a [u8; N] {
    ghost words = { λ bytes. bytes.now };

    fn put<A: Memory>(&self, text: &mut Vec<u8, A>) -> Result<(), NoResources> {
        self.as_slice().put(text)
    }
}

/// A number in decimal.
#[derive(Clone, Copy)]
pub struct Number<I: Copy>(pub I);

impl<I: Integer + Copy> Words for Number<I> {
    ghost words = { λ number. I.text number.0 };

    fn put<A: Memory>(&self, text: &mut Vec<u8, A>) -> Result<(), NoResources> {
        Buffer::new().format(self.0).as_bytes().put(text)
    }
}

/// One part and then another.
impl<X: Words, Y: Words> Words for (X, Y) {
    ghost words = { λ both. X.words both.0 ++ Y.words both.1 };

    fn put<A: Memory>(&self, text: &mut Vec<u8, A>) -> Result<(), NoResources> {
        self.0.put(text)?;
        self.1.put(text)
    }
}

/// A part that may be missing.
impl<W: Words> Words for Option<W> {
    ghost words = { λ part. option_map_or W.words part [] };

    fn put<A: Memory>(&self, text: &mut Vec<u8, A>) -> Result<(), NoResources> {
        match self {
            None => Ok(()),
            Some(part) => part.put(text),
        }
    }
}

/// A part that stands only if something holds.
#[derive(Drop)]
pub struct When<W>(pub bool, pub W);

impl<W: Words> Words for When<W> {
    ghost words = { λ part. if part.0 then W.words part.1 else [] };

    fn put<A: Memory>(&self, text: &mut Vec<u8, A>) -> Result<(), NoResources> {
        if self.0 { self.1.put(text) } else { Ok(()) }
    }
}

/// A number with the name of what it counts: `1 name`, `2 names`.
#[derive(Drop)]
pub struct Counted(pub usize, pub &'static [u8]);

impl Words for Counted {
    ghost words = { λ things. counted things.0 things.1.now };

    fn put<A: Memory>(&self, text: &mut Vec<u8, A>) -> Result<(), NoResources> {
        let ending = When(self.0 != 1, b"s");
        said![Number(self.0), b" ", self.1, ending].put(text)
    }
}

/// A sentence on a line of its own: two spaces before it, a line feed after it.
#[derive(Drop)]
pub struct Line<W>(pub W);

impl<W: Words> Words for Line<W> {
    ghost words = { λ line. indented (W.words line.0) };

    fn put<A: Memory>(&self, text: &mut Vec<u8, A>) -> Result<(), NoResources> {
        b"  ".put(text)?;
        self.0.put(text)?;
        b"\n".put(text)
    }
}
