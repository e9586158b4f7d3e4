//! The integers in a text, and the texts of integers and booleans.

ghost use Rattle.std.specs.Prelude.{Ok};
ghost use Rattle.cvl_base.specs.Gives.{Gives};
ghost use Rattle.c_calls.specs.Calls.{in_limit};
ghost use Rattle.value_texts.specs.Texts.{vector_text};

use crate::checks::check_limit;
use cvl_base::Refused;
use std::alloc::Global;
use value_texts::{Written, vector_text_alone};

/// The text of a vector.
pub fn text<T: Written>(alloc: Global, a: &[T]) -> Result<Vec<u8, Global>, Refused>
    ensures { Gives (λ v. v.items) result (in_limit a.now (Ok (vector_text T.text_of a.now))) }
{
    check_limit(a)?;
    Ok(vector_text_alone(alloc, a)?)
}
