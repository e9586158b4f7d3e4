//! Vectors as they are written without a descriptor.

ghost use Rattle.std.specs.Prelude.{◌≡◌, IfSome};
ghost use Rattle.value_texts.specs.Texts.{flat_text, text_of};

use cvl_base::{Memory, Value};

/// The most elements of a vector whose text is made whole before it is put anywhere.
const MOST_WHOLE: usize = 262_144;

/// The elements of a vector, or the lengths of a descriptor.
#[derive(Clone, Copy)]
pub enum FlatVector<'a> {
    /// Integers, or lengths.
    Integers(&'a [i32]),
    /// Booleans.
    Booleans(&'a [bool]),
}

/// The elements of a vector or the lengths of a descriptor.
fn flat_vector<A: Memory>(value: &Value<A>) -> Option<FlatVector<'_>>
    ensures { IfSome result (λ vector. flat_text vector ≡ text_of value.now) }
{
    match value {
        Value::Integers(numbers) => Some(FlatVector::Integers(numbers.as_slice())),
        Value::Booleans(flags) => Some(FlatVector::Booleans(flags.as_slice())),
        Value::Descriptor(lengths) => Some(FlatVector::Integers(lengths.as_slice())),
        Value::Integer(_) | Value::Boolean(_) => None,
    }
}

/// The elements of a vector or the lengths of a descriptor, if there are more than 262,144, so that their text is better made
/// piece by piece.
pub fn long_vector<A: Memory>(value: &Value<A>) -> Option<FlatVector<'_>>
    ensures { IfSome result (λ vector. flat_text vector ≡ text_of value.now) }
{
    let vector = flat_vector(value)?;
    let elements = match vector {
        FlatVector::Integers(numbers) => numbers.len(),
        FlatVector::Booleans(flags) => flags.len(),
    };
    if elements > MOST_WHOLE {
        Some(vector)
    } else {
        None
    }
}
