//! The integers in a text, and the texts of integers and booleans.

ghost use Rattle.std.specs.Prelude.{Ok};
ghost use Rattle.std.specs.Fmt.{signed_decimal};
ghost use Rattle.cvl_base.specs.Limits.{most_places};
ghost use Rattle.call_reader.specs.Inputs.{input_within};
ghost use Rattle.c_calls.specs.Calls.{in_limit};
ghost use Rattle.c_calls.specs.Told.{FrontToldOr, front_of};
ghost use Rattle.value_texts.specs.Texts.{boolean_text, vector_text};

use c_calls::status::{CvlStatus, told_in_front};
use c_calls::text_calls::text;
use call_reader::read_vector_within;
use cvl_base::limits::MOST_PLACES;
use std::alloc::Global;

/// The integers in a text, between white space.
#[unsafe(no_mangle)]
pub extern "C" fn cvl_proved_read_ints(
    alloc: Global,
    text: &[u8],
    out: &mut [i32],
    count: &mut usize,
) -> CvlStatus
    ensures { FrontToldOr (input_within most_places text.now) result (front_of out.old count.old) (front_of out.new count.new) }
{
    told_in_front(read_vector_within(alloc, MOST_PLACES, text), out, count)
}

/// The text of the integers, in decimal between brackets.
#[unsafe(no_mangle)]
pub extern "C" fn cvl_proved_write_ints(
    alloc: Global,
    a: &[i32],
    out: &mut [u8],
    count: &mut usize,
) -> CvlStatus
    ensures { FrontToldOr (in_limit a.now (Ok (vector_text signed_decimal a.now)))
        result (front_of out.old count.old) (front_of out.new count.new) }
{
    told_in_front(text(alloc, a), out, count)
}

/// The text of the booleans, each `T` or `F`, between brackets.
#[unsafe(no_mangle)]
pub extern "C" fn cvl_proved_write_bools(
    alloc: Global,
    a: &[bool],
    out: &mut [u8],
    count: &mut usize,
) -> CvlStatus
    ensures { FrontToldOr (in_limit a.now (Ok (vector_text boolean_text a.now)))
        result (front_of out.old count.old) (front_of out.new count.new) }
{
    told_in_front(text(alloc, a), out, count)
}
