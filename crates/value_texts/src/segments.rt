//! The segments of a vector, whose texts are counted and written in parts.

ghost use Rattle.std.specs.Prelude.{◌≡◌, ◌+◌, ◌*◌, ◌≤◌, length, map, sum, take, unsigned_abs, [], ◌∷◌};
ghost use Rattle.std.specs.List.{join_with_byte};
ghost use Rattle.cvl_base.specs.Limits.{most_elements};
ghost use Rattle.cvl_base.specs.Nests.{cut_of};
ghost use Rattle.fresh.specs.Places.{stretch, with_items};
ghost use Rattle.value_texts.specs.Parts.{AreFewest};
ghost use Rattle.value_texts.specs.Texts.{spaced, vector_text};

use crate::elements::{count_spaced, write_into_run};
use crate::part_writes::Cut;
use crate::vector_text::{PAGE_BYTES, Page, text_in_page};
use crate::written::Written;
use fresh::{Part, Run};
use sharing::share_of_first;
use std::alloc::AllocError;

/// The number of bytes of a vector's text.
#[tactic(auto, using(crate::proofs::SegmentWalk::text_size))]
fn count_vector<T: Written>(xs: &[T]) -> u32
    requires { length xs.now ≤ most_elements }
    ensures count { result ≡ length (vector_text T.text_of xs.now) }
    ensures few { result ≤ 2 + 12 * length xs.now }
{
    let Some((_first, _others)) = xs.split_first() else {
        return 2;
    };
    // two brackets, and no space before the first element
    1 + count_spaced(xs)
}

/// How many bytes the texts of the segments have, each after a space.
fn count_segments<T: Written>(lengths: &[i32], xs: &[T]) -> u32
    requires few_segments { length lengths.now ≤ most_elements }
    requires few { length xs.now ≤ most_elements }
    requires cut { sum (map unsigned_abs lengths.now) ≡ length xs.now }
    ensures { result ≡ length (spaced (vector_text T.text_of) (cut_of (map unsigned_abs lengths.now) xs.now)) }
{
    let mut bytes = 0;
    let mut rest = xs;
    for length in lengths {
        let (segment, others) = rest.split_at(length.unsigned_abs() as usize);
        bytes += 1 + count_vector(segment);
        rest = others;
    }
    bytes
}

/// Writes the texts of the elements, with spaces between them, after what the run holds.
fn write_joined<T: Written>(xs: &[T], page: &mut Page, run: Run<u8>) -> Run<u8>
    requires { length (join_with_byte 32 (map T.text_of xs.now)) ≤ run.room }
    ensures { result ≡ with_items run (join_with_byte 32 (map T.text_of xs.now)) }
{
    let Some((first, others)) = xs.split_first() else {
        return run;
    };
    let run = run.extend_from_slice(text_in_page(first, page));
    write_into_run(others, page, run)
}

/// Writes a space and the text of a vector after what the run holds.
fn write_vector<T: Written>(xs: &[T], page: &mut Page, run: Run<u8>) -> Run<u8>
    requires { 1 + length (vector_text T.text_of xs.now) ≤ run.room }
    ensures { result ≡ with_items run (spaced (vector_text T.text_of) (xs.now ∷ [])) }
{
    let run = run.extend_from_slice(b" [");
    let run = write_joined(xs, page, run);
    run.extend_from_slice(b"]")
}

/// Writes the texts of the segments, each after a space, after what the run holds.
fn write_segments<T: Written>(lengths: &[i32], xs: &[T], page: &mut Page, run: Run<u8>) -> Run<u8>
    requires cut { sum (map unsigned_abs lengths.now) ≡ length xs.now }
    requires room { length (spaced (vector_text T.text_of) (cut_of (map unsigned_abs lengths.now) xs.now)) ≤ run.room }
    ensures { result ≡ with_items run (spaced (vector_text T.text_of) (cut_of (map unsigned_abs lengths.now) xs.now)) }
{
    let mut run = run;
    let mut rest = xs;
    for length in lengths {
        let (segment, others) = rest.split_at(length.unsigned_abs() as usize);
        run = write_vector(segment, page, run);
        rest = others;
    }
    run
}

/// Neighbouring segments of a vector, each with a space before it.
pub(crate) struct SegmentTexts<'a, T> {
    pub(crate) lengths: &'a [i32],
    pub(crate) xs: &'a [T],
    ghost few_segments: { length lengths.now ≤ most_elements },
    ghost few: { length xs.now ≤ most_elements },
    ghost cut: { sum (map unsigned_abs lengths.now) ≡ length xs.now },
}

impl<'a, T> Clone for SegmentTexts<'a, T> {
    ghost use Rattle.std.specs.Prelude.{◌≡◌, ⊤};

    ghost is_clone = { λ x y. y ≡ x };

    ghost is_infallible = { λ _. ⊤ };

    fn clone(&self) -> Result<SegmentTexts<'a, T>, AllocError> {
        Ok(*self)
    }
}

impl<'a, T> Copy for SegmentTexts<'a, T> {}

impl<'a, T: Written> Part<u8> for SegmentTexts<'a, T> {
    ghost use Rattle.std.specs.Prelude.{map, unsigned_abs, None};
    ghost use Rattle.cvl_base.specs.Nests.{cut_of};
    ghost use Rattle.value_texts.specs.Texts.{spaced, vector_text};

    ghost items = { λ part. spaced (vector_text T.text_of) (cut_of (map unsigned_abs part.lengths.now) part.xs.now) };

    ghost found = { λ part first. None };

    fn count(&self) -> usize {
        count_segments(self.lengths, self.xs) as usize
    }

    fn write(&self, run: Run<u8>) -> (Run<u8>, Option<usize>)
        requires empty { run.items ≡ [] }
        requires room { run.room ≡ length (spaced (vector_text T.text_of)
            (cut_of (map unsigned_abs self.now.lengths.now) self.now.xs.now)) }
        ensures run { result.0 ≡ stretch run.block run.first
            (spaced (vector_text T.text_of) (cut_of (map unsigned_abs self.now.lengths.now) self.now.xs.now)) 0 }
        ensures found { result.1 ≡ None }
    {
        let mut page = [0; PAGE_BYTES];
        (write_segments(self.lengths, self.xs, &mut page, run), None)
    }
}

/// How many of the first segments take at least this much to write, or all segments, and how many elements they have. A segment
/// takes about as much as its elements and one more.
fn leading(lengths: &[i32], least: usize) -> (usize, usize)
    requires few_segments { length lengths.now ≤ most_elements }
    requires few { sum (map unsigned_abs lengths.now) ≤ most_elements }
    ensures segments { result.0 ≤ length lengths.now }
    ensures elements { result.1 ≡ sum (map unsigned_abs (take result.0 lengths.now)) }
    ensures fewest { AreFewest lengths.now least result.0 }
{
    let mut elements = 0;
    for (segments, length) in lengths.iter().enumerate() {
        if elements + segments >= least {
            return (segments, elements);
        }
        elements += length.unsigned_abs() as usize;
    }
    (lengths.len(), elements)
}

#[tactic(auto, using(crate::proofs::SegmentWalk::segments_cut))]
impl<'a, T: Written> Cut<u8> for SegmentTexts<'a, T> {
    ghost use Rattle.std.specs.Prelude.{◌≡◌, ◌+◌, ◌++◌, length};
    ghost use Rattle.sharing.specs.Shares.{share_of_first};
    ghost use Rattle.value_texts.specs.Parts.{AreFewest};

    ghost IsCut = { λ part parts front others. (front.lengths.now ++ others.lengths.now ≡ part.lengths.now)
        × AreFewest part.lengths.now (share_of_first 1 parts (length part.xs.now + length part.lengths.now))
        (length front.lengths.now) };

    fn cut(self, parts: usize) -> (SegmentTexts<'a, T>, SegmentTexts<'a, T>) {
        let least = share_of_first(1, parts, self.xs.len() + self.lengths.len());
        let (segments, elements) = leading(self.lengths, least);
        let (front_lengths, other_lengths) = self.lengths.split_at(segments);
        let (front, others) = self.xs.split_at(elements);
        let first = SegmentTexts {
            lengths: front_lengths,
            xs: front,
        };
        let second = SegmentTexts {
            lengths: other_lengths,
            xs: others,
        };
        (first, second)
    }
}
