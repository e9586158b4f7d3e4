//! The elements of a vector, whose texts are counted and written in parts.

ghost use Rattle.std.specs.Prelude.{◌≡◌, ◌*◌, ◌≤◌, [], length};
ghost use Rattle.cvl_base.specs.Limits.{most_elements};
ghost use Rattle.fresh.specs.Places.{stretch, with_items};
ghost use Rattle.value_texts.specs.Texts.{spaced};

use crate::part_writes::Cut;
use crate::vector_text::{PAGE_BYTES, PAGE_ELEMENTS, Page, write_spaced};
use crate::written::Written;
use fresh::{Part, Run};
use sharing::share_of_first;
use std::alloc::AllocError;

/// How many bytes the texts of the elements have, each after a space.
pub(crate) fn count_spaced<T: Written>(xs: &[T]) -> u32
    requires { length xs.now ≤ most_elements }
    ensures count { result ≡ length (spaced T.text_of xs.now) }
    ensures few { result ≤ 12 * length xs.now }
{
    let mut bytes = 0;
    for x in xs {
        bytes += 1 + x.text_len();
    }
    bytes
}

/// Writes the texts of the elements, each after a space, after what the run holds.
pub(crate) fn write_into_run<T: Written>(xs: &[T], page: &mut Page, run: Run<u8>) -> Run<u8>
    requires { length (spaced T.text_of xs.now) ≤ run.room }
    ensures { result ≡ with_items run (spaced T.text_of xs.now) }
{
    let mut run = run;
    let mut rest = xs;
    while rest.len() > PAGE_ELEMENTS {
        let (front, others) = rest.split_at(PAGE_ELEMENTS);
        let start = write_spaced(front, page);
        run = run.extend_from_slice(&page[start..]);
        rest = others;
    }
    let start = write_spaced(rest, page);
    run.extend_from_slice(&page[start..])
}

/// Neighbouring elements of a vector, each with a space before it.
pub(crate) struct ElementTexts<'a, T> {
    pub(crate) xs: &'a [T],
    ghost few: { length xs.now ≤ most_elements },
}

impl<'a, T> Clone for ElementTexts<'a, T> {
    ghost use Rattle.std.specs.Prelude.{◌≡◌, ⊤};

    ghost is_clone = { λ x y. y ≡ x };

    ghost is_infallible = { λ _. ⊤ };

    fn clone(&self) -> Result<ElementTexts<'a, T>, AllocError> {
        Ok(*self)
    }
}

impl<'a, T> Copy for ElementTexts<'a, T> {}

impl<'a, T: Written> Part<u8> for ElementTexts<'a, T> {
    ghost use Rattle.std.specs.Prelude.{None};
    ghost use Rattle.value_texts.specs.Texts.{spaced};

    ghost items = { λ part. spaced T.text_of part.xs.now };

    ghost found = { λ part first. None };

    fn count(&self) -> usize {
        count_spaced(self.xs) as usize
    }

    fn write(&self, run: Run<u8>) -> (Run<u8>, Option<usize>)
        requires empty { run.items ≡ [] }
        requires room { run.room ≡ length (spaced T.text_of self.now.xs.now) }
        ensures run { result.0 ≡ stretch run.block run.first (spaced T.text_of self.now.xs.now) 0 }
        ensures found { result.1 ≡ None }
    {
        let mut page = [0; PAGE_BYTES];
        (write_into_run(self.xs, &mut page, run), None)
    }
}

impl<'a, T: Written> Cut<u8> for ElementTexts<'a, T> {
    ghost use Rattle.std.specs.Prelude.{◌≡◌, ◌++◌, length};
    ghost use Rattle.sharing.specs.Shares.{share_of_first};

    ghost IsCut = { λ part parts front others. (front.xs.now ++ others.xs.now ≡ part.xs.now)
        × (length front.xs.now ≡ share_of_first 1 parts (length part.xs.now)) };

    fn cut(self, parts: usize) -> (ElementTexts<'a, T>, ElementTexts<'a, T>) {
        let (front, others) = self.xs.split_at(share_of_first(1, parts, self.xs.len()));
        (ElementTexts { xs: front }, ElementTexts { xs: others })
    }
}
