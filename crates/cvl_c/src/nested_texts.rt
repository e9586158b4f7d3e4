//! Vectors with segments, read from a nested text, and their texts.

ghost use Rattle.std.specs.Fmt.{signed_decimal};
ghost use Rattle.call_reader.specs.NestedTexts.{nested_of};
ghost use Rattle.c_calls.specs.Calls.{by_segments};
ghost use Rattle.c_calls.specs.Fronts.{FrontsToldOr};
ghost use Rattle.c_calls.specs.NestedTexts.{segments_text, with_lengths};
ghost use Rattle.c_calls.specs.Told.{FrontToldOr, front_of};
ghost use Rattle.value_texts.specs.Texts.{boolean_text};

use c_calls::checks::segments;
use c_calls::or_tell;
use c_calls::status::{CvlStatus, told_in_front};
use c_calls::told_nest::told_nest;
use call_reader::read_nested_alone;
use cvl_base::check_agree;
use std::alloc::Global;
use value_texts::nest_text_alone;

/// The integers of a nested text, and the lengths of its lists.
#[unsafe(no_mangle)]
pub extern "C" fn cvl_proved_seg_read_ints(
    alloc: Global,
    text: &[u8],
    out: &mut [i32],
    count: &mut usize,
    lengths: &mut [i32],
    segments: &mut usize,
) -> CvlStatus
    ensures { FrontsToldOr (with_lengths (nested_of text.now)) result
        (front_of out.old count.old, front_of lengths.old segments.old)
        (front_of out.new count.new, front_of lengths.new segments.new) }
{
    told_nest(
        read_nested_alone(alloc, text),
        out,
        count,
        lengths,
        segments,
    )
}

/// The text of the integers, cut into segments, in brackets.
#[unsafe(no_mangle)]
pub extern "C" fn cvl_proved_seg_write_ints(
    alloc: Global,
    a: &[i32],
    lengths: &[i32],
    out: &mut [u8],
    count: &mut usize,
) -> CvlStatus
    ensures { FrontToldOr (by_segments lengths.now (segments_text signed_decimal a.now))
        result (front_of out.old count.old) (front_of out.new count.new) }
{
    let d = or_tell!(segments(lengths));
    or_tell!(check_agree(d.total(), a.len()));
    told_in_front(Ok(or_tell!(nest_text_alone(alloc, &d, a))), out, count)
}

/// The text of the booleans, each `T` or `F`, cut into segments, in brackets.
#[unsafe(no_mangle)]
pub extern "C" fn cvl_proved_seg_write_bools(
    alloc: Global,
    a: &[bool],
    lengths: &[i32],
    out: &mut [u8],
    count: &mut usize,
) -> CvlStatus
    ensures { FrontToldOr (by_segments lengths.now (segments_text boolean_text a.now))
        result (front_of out.old count.old) (front_of out.new count.new) }
{
    let d = or_tell!(segments(lengths));
    or_tell!(check_agree(d.total(), a.len()));
    told_in_front(Ok(or_tell!(nest_text_alone(alloc, &d, a))), out, count)
}
