//! What a call takes and gives, in words.

ghost use Rattle.std.specs.Prelude.{◌≡◌};
ghost use Rattle.cvl_base.specs.Calls.{spelling_of};
ghost use Rattle.explained_calls.specs.CallWords.{call_words, kind_words, listed, separator};

use crate::said;
use crate::words::Words;
use cvl_base::{Kind, Memory, NoResources, Op};

/// A kind: a plural for vectors, else with an article.
impl Words for Kind {
    ghost words = { kind_words };

    fn put<A: Memory>(&self, text: &mut Vec<u8, A>) -> Result<(), NoResources> {
        match self {
            Kind::Integers => b"integers".put(text),
            Kind::Booleans => b"booleans".put(text),
            Kind::Descriptor => b"a descriptor".put(text),
            Kind::Integer => b"an integer".put(text),
            Kind::Boolean => b"a boolean".put(text),
        }
    }
}

/// What separates a word of a list from the `others` words after it.
fn separator(others: usize) -> &'static [u8]
    ensures { result.now ≡ separator others }
{
    match others {
        0 => b"",
        1 => b" and ",
        _ => b", ",
    }
}

/// Kinds, as a list.
#[derive(Drop)]
struct Listed<'a>(&'a [Kind]);

impl<'a> Words for Listed<'a> {
    ghost words = { λ kinds. listed kinds.0.now };

    fn put<A: Memory>(&self, text: &mut Vec<u8, A>) -> Result<(), NoResources> {
        let kinds = self.0;
        for (place, kind) in kinds.iter().enumerate() {
            let others = kinds.len() - place - 1;
            said![*kind, separator(others)].put(text)?;
        }
        Ok(())
    }
}

/// The name of a call.
#[derive(Clone, Copy)]
pub struct Spelling(pub Op);

impl Words for Spelling {
    ghost words = { λ call. spelling_of call.0 };

    fn put<A: Memory>(&self, text: &mut Vec<u8, A>) -> Result<(), NoResources> {
        let name = self.0.spelling();
        let (operator, class) = (name.operator.as_bytes(), name.class.as_bytes());
        said![operator, class, name.cut_and_element.as_bytes()].put(text)
    }
}

/// Which kinds of values a call takes and gives, for example `add_rez takes integers and a descriptor, and gives integers`.
#[derive(Clone, Copy)]
pub struct CallWords(pub Op);

impl Words for CallWords {
    ghost words = { λ call. call_words call.0 };

    fn put<A: Memory>(&self, text: &mut Vec<u8, A>) -> Result<(), NoResources> {
        let op = self.0;
        if op.is_write() {
            return b"write takes a value, or a vector and its descriptor, and shows it".put(text);
        }
        let (takes, gives) = (Listed(op.operands()), Listed(op.gives()));
        said![Spelling(op), b" takes ", takes, b", and gives ", gives].put(text)
    }
}
