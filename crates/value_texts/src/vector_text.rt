//! The text of vectors.

ghost use Rattle.std.specs.Prelude.{◌≡◌, ◌+◌, ◌*◌, ◌≤◌, ◌++◌, codes, length, take, drop, vec_len, vec_capacity, IfOk, IsOk};
ghost use Rattle.value_texts.specs.Texts.{Appends, spaced, vector_text};

use crate::elements::ElementTexts;
use crate::part_writes::put_in_parts;
use crate::written::{MOST_TEXT_BYTES, Written};
use cvl_base::{Config, Memory, NoResources};
use sharing::threads_writing_text;
use std::alloc::Allocator;
use std::thread::Threads;

/// How many elements' texts are collected in a page before they are appended.
pub(crate) const PAGE_ELEMENTS: usize = 1024;

/// The bytes of a page: room for the texts of its elements, each after a space.
pub(crate) const PAGE_BYTES: usize = PAGE_ELEMENTS * (MOST_TEXT_BYTES + 1);

/// Where texts are collected, from its end to its front, before they are appended: one copy of many bytes is faster than one for
/// each element.
pub(crate) type Page = [u8; PAGE_BYTES];

/// Writes the text of one element at the end of the page, and returns it.
#[inline(always)]
pub(crate) fn text_in_page<'a, T: Written>(x: &T, page: &'a mut Page) -> &'a [u8]
    ensures { result.now ≡ T.text_of x.now }
{
    let start = x.write_before(page, PAGE_BYTES);
    &page[start..]
}

/// Writes the texts of at most 1,024 elements, each after a space, at the end of the page, and returns where they start.
pub(crate) fn write_spaced<T: Written>(xs: &[T], page: &mut Page) -> usize
    requires { length xs.now ≤ PAGE_ELEMENTS }
    ensures written { drop result page.new ≡ spaced T.text_of xs.now }
    ensures within { result ≤ PAGE_BYTES }
    ensures short { PAGE_BYTES ≤ result + 12 * length xs.now }
{
    let mut at = PAGE_BYTES;
    let mut left = xs.len();
    while left > 0 {
        left -= 1;
        at = xs[left].write_before(page, at) - 1;
        page[at] = b' ';
    }
    at
}

/// Appends the texts of the elements, each after a space. After a refusal the text begins as before. There is none if the text
/// has room for twelve bytes an element.
pub(crate) fn put_spaced_alone<T: Written, A: Allocator>(
    xs: &[T],
    page: &mut Page,
    text: &mut Vec<u8, A>,
) -> Result<(), NoResources>
    ensures appends { Appends result text.old.items text.new.items (spaced T.text_of xs.now) }
    ensures in_room { vec_len text.old + 12 * length xs.now ≤ vec_capacity text.old → IsOk result }
    ensures capacity { vec_capacity text.old ≤ vec_capacity text.new }
{
    let mut rest = xs;
    while rest.len() > PAGE_ELEMENTS {
        let (front, others) = rest.split_at(PAGE_ELEMENTS);
        let start = write_spaced(front, page);
        text.extend_from_slice(&page[start..])?;
        rest = others;
    }
    let start = write_spaced(rest, page);
    text.extend_from_slice(&page[start..])?;
    Ok(())
}

/// Appends the text of one element. After a refusal the text begins as before.
pub(crate) fn put_element<T: Written, A: Allocator>(
    x: &T,
    page: &mut Page,
    text: &mut Vec<u8, A>,
) -> Result<(), NoResources>
    ensures { Appends result text.old.items text.new.items (T.text_of x.now) }
{
    text.extend_from_slice(text_in_page(x, page))?;
    Ok(())
}

/// Appends `[` and the text of the first element, if there is one, and returns the others. After a refusal the text begins as
/// before.
#[tactic(auto, using(crate::proofs::Spaces::opened_onto))]
fn put_first<'a, T: Written, A: Allocator>(
    xs: &'a [T],
    page: &mut Page,
    text: &mut Vec<u8, A>,
) -> Result<&'a [T], NoResources>
    ensures ok { IfOk result (λ others. text.new.items ++ spaced T.text_of others.now ++ codes "]"
        ≡ text.old.items ++ vector_text T.text_of xs.now) }
    ensures few { IfOk result (λ others. length others.now ≤ length xs.now) }
    ensures begins { take (length text.old.items) text.new.items ≡ text.old.items }
{
    text.push(b'[')?;
    let Some((first, others)) = xs.split_first() else {
        return Ok(xs);
    };
    put_element(first, page, text)?;
    Ok(others)
}

/// Appends the beginning of a vector's text, `[` and the text of the first element, if there is one, and returns the others:
/// these follow, each after a space, and then `]`. After a refusal the text may have a part of it.
pub fn put_opening<'a, T: Written, A: Allocator>(
    xs: &'a [T],
    text: &mut Vec<u8, A>,
) -> Result<&'a [T], NoResources>
    ensures ok { IfOk result (λ others. text.new.items ++ spaced T.text_of others.now ++ codes "]"
        ≡ text.old.items ++ vector_text T.text_of xs.now) }
    ensures few { IfOk result (λ others. length others.now ≤ length xs.now) }
{
    let mut page = [0; PAGE_BYTES];
    put_first(xs, &mut page, text)
}

/// Appends the text of a vector on the calling thread. After a refusal the text begins as before.
pub(crate) fn put_vector_alone<T: Written, A: Allocator>(
    xs: &[T],
    page: &mut Page,
    text: &mut Vec<u8, A>,
) -> Result<(), NoResources>
    ensures { Appends result text.old.items text.new.items (vector_text T.text_of xs.now) }
{
    let others = put_first(xs, page, text)?;
    put_spaced_alone(others, page, text)?;
    text.push(b']')?;
    Ok(())
}

/// Appends the text of a vector by as many threads as pay; the text then moves into fresh memory. A text that is longer than what
/// is appended stays on one thread. After a refusal the text begins as before.
pub(crate) fn put_vector<R: Threads + Sync, T: Written + Sync, A: Memory>(
    rt: &R,
    alloc: A,
    config: Config,
    xs: &[T],
    page: &mut Page,
    text: &mut Vec<u8, A>,
) -> Result<(), NoResources>
    ensures { Appends result text.old.items text.new.items (vector_text T.text_of xs.now) }
{
    if xs.len() <= PAGE_ELEMENTS {
        return put_vector_alone(xs, page, text);
    }
    let threads = threads_writing_text(config, xs.len());
    if threads.get() < 2 || text.len() / MOST_TEXT_BYTES > xs.len() {
        return put_vector_alone(xs, page, text);
    }
    let others = put_first(xs, page, text)?;
    put_in_parts(rt, alloc, threads, ElementTexts { xs: others }, text)?;
    text.push(b']')?;
    Ok(())
}
