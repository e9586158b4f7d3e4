//! A word in the place of a call that is none, in words.

ghost use Rattle.std.specs.Prelude.{◌≡◌, ◌++◌, option_map, OnOk};
ghost use Rattle.explained_calls.specs.LineFaults.{near_words, other_word_words, unknown_call_words};
ghost use Rattle.explained_calls.specs.Sentences.{indented};

use crate::nearest_calls::near_call;
use crate::said;
use crate::words::{Line, Words};
use cvl_base::name::is_name_text;
use cvl_base::{Memory, NoResources};

/// Which call is near, or else where all stand.
#[derive(Drop)]
struct Near<'a>(Option<&'a [u8]>);

impl<'a> Words for Near<'a> {
    ghost words = { λ near. near_words (option_map (λ name. name.now) near.0) };

    fn put<A: Memory>(&self, text: &mut Vec<u8, A>) -> Result<(), NoResources> {
        match self.0 {
            Some(name) => said![b"; the nearest call is ", name].put(text),
            None => b"; docs/user/calls.md lists all calls".put(text),
        }
    }
}

/// Appends why another word than `write` is no call: a name alone may be one that should be copied.
fn put_other_word<A: Memory>(
    alloc: A,
    word: &[u8],
    arguments: usize,
    text: &mut Vec<u8, A>,
) -> Result<(), NoResources>
    ensures { OnOk result (text.new.items ≡ text.old.items ++ indented (other_word_words word.now arguments)) }
{
    if is_name_text(word) && arguments == 0 {
        let no_call = b" is no call; if it is a vector, `cpy_wuz ";
        let copies = b"` copies its integers, and `cpy_wub ";
        return Line(said![word, no_call, word, copies, word, b"` its booleans"]).put(text);
    }
    let near = Near(near_call(alloc, word)?);
    Line(said![word, b" is no call", near]).put(text)
}

/// Appends why a word with so many arguments is no call.
pub(crate) fn put_unknown_call<A: Memory>(
    alloc: A,
    call: &[u8],
    arguments: usize,
    text: &mut Vec<u8, A>,
) -> Result<(), NoResources>
    ensures { OnOk result (text.new.items ≡ text.old.items ++ indented (unknown_call_words call.now arguments)) }
{
    if call == b"write".as_slice() {
        let words = b"write is no call: it begins a line of its own, and binds no name";
        Line(words).put(text)
    } else {
        put_other_word(alloc, call, arguments, text)
    }
}
