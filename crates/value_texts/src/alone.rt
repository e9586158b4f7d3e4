//! The texts of vectors and of nests on the calling thread, for code that has no runtime.

ghost use Rattle.std.specs.Prelude.{◌≡◌, IfOk, length, sum};
ghost use Rattle.cvl_base.specs.Nests.{cut_of};
ghost use Rattle.value_texts.specs.Texts.{nest_text, vector_text};

use crate::nest_text::put_nest_alone;
use crate::vector_text::{PAGE_BYTES, put_vector_alone};
use crate::written::Written;
use cvl_base::{Memory, NoResources};
use segdes::SegLengths;
use std::alloc::Allocator;

/// The text of a vector of integers or booleans, as [`put_value`](crate::put_value) appends it. The text grows by the bytes of
/// up to 1,024 elements at a time.
pub fn vector_text_alone<T: Written, A: Allocator>(
    alloc: A,
    xs: &[T],
) -> Result<Vec<u8, A>, NoResources>
    ensures { IfOk result (λ text. text.items ≡ vector_text T.text_of xs.now) }
{
    let mut page = [0; PAGE_BYTES];
    let mut text = Vec::new(alloc);
    put_vector_alone(xs, &mut page, &mut text)?;
    Ok(text)
}

/// The text of the vectors into which a descriptor cuts a vector of integers or booleans, as [`put_value`](crate::put_value)
/// appends it. The vector is as long as the descriptor's total. The text grows by the bytes of up to 1,024 elements of a segment
/// at a time.
#[tactic(auto, using(cvl_base::proofs::Descriptors::abs_pos))]
pub fn nest_text_alone<T: Written, A: Memory>(
    alloc: A,
    d: &SegLengths,
    xs: &[T],
) -> Result<Vec<u8, A>, NoResources>
    requires { sum d.now ≡ length xs.now }
    ensures { IfOk result (λ text. text.items ≡ nest_text T.text_of (cut_of d.now xs.now)) }
{
    let mut page = [0; PAGE_BYTES];
    let mut text = Vec::new(alloc);
    put_nest_alone(d.lengths(), xs, &mut page, &mut text)?;
    Ok(text)
}
