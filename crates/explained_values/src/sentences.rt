//! The name of an element, in words.

ghost use Rattle.explained_values.specs.Arguments.{element_name};

use cvl_base::{Memory, NoResources};
use explained_calls::{Number, Words, said};

/// The element of a vector at a place: `v[3]`.
#[derive(Drop)]
pub(crate) struct Element<'a>(pub(crate) &'a [u8], pub(crate) usize);

impl<'a> Words for Element<'a> {
    ghost words = { λ element. element_name element.0.now element.1 };

    fn put<A: Memory>(&self, text: &mut Vec<u8, A>) -> Result<(), NoResources> {
        said![self.0, b"[", Number(self.1), b"]"].put(text)
    }
}
