//! Permutes in parts, each of which writes a range of the result and reads all indices: only `bindings/c/steps.c` calls these.
//!
//! `from` is where the part's range begins in the result, and `out` is the range. `marks` has a bit for each place of it, 32 in a
//! word, in words of the part's own; it may have more words. `count` is how many places of the range got an element.

ghost use Rattle.std.specs.Prelude.{Ok};
ghost use Rattle.c_calls.specs.Told.{RoomTold, Told};
ghost use Rattle.permute_parts.specs.Counts.{all_flagged_of, all_sent_of, trues_fit_of};
ghost use Rattle.permute_parts.specs.Marks.{mark_places_of, within_longest};
ghost use Rattle.permute_parts.specs.Ranges.{as_flags_in, part_default_of, part_permute_of, part_select_of};

use crate::parts::told_range;
use c_calls::status::{CvlStatus, told_one, told_over};
use permute_parts::flags::{
    part_flag_default_permute, part_flag_permute, part_flag_select_permute,
};
use permute_parts::{
    all_flagged, all_sent, mark_places, part_default_permute, part_permute, part_select_permute,
    trues_fit,
};

/// Where the words of marks of each part begin, and at last where they end.
#[unsafe(no_mangle)]
pub extern "C" fn cvl_proved_mark_places(from: &[usize], places: &mut [usize]) -> CvlStatus
    ensures { RoomTold (within_longest from.now (Ok (mark_places_of from.now))) result places.old places.new }
{
    told_over::<usize>(mark_places(from, places))
}

/// The integers that go to a part's range of a simple permute.
#[unsafe(no_mangle)]
pub extern "C" fn cvl_proved_part_permute_int(
    from: usize,
    source: &[i32],
    index: &[i32],
    out: &mut [i32],
    marks: &mut [u32],
    count: &mut usize,
) -> CvlStatus
    ensures { Told (part_permute_of source.now index.now from out.old marks.old)
        result (out.old, marks.old, count.old) (out.new, marks.new, count.new) }
{
    told_range::<i32>(part_permute(from, source, index, out, marks), count)
}

/// The booleans that go to a part's range of a simple permute, as 0 and 1; they come as bytes, any of which but 0 is true.
#[unsafe(no_mangle)]
pub extern "C" fn cvl_proved_part_permute_bool(
    from: usize,
    source: &[u8],
    index: &[i32],
    out: &mut [u8],
    marks: &mut [u32],
    count: &mut usize,
) -> CvlStatus
    ensures { Told (as_flags_in (part_permute_of source.now index.now from out.old marks.old))
        result (out.old, marks.old, count.old) (out.new, marks.new, count.new) }
{
    told_range::<u8>(part_flag_permute(from, source, index, out, marks), count)
}

/// The integers whose flag is true and that go to a part's range of a select permute.
#[unsafe(no_mangle)]
pub extern "C" fn cvl_proved_part_select_permute_int(
    from: usize,
    source: &[i32],
    index: &[i32],
    flags: &[bool],
    out: &mut [i32],
    marks: &mut [u32],
    count: &mut usize,
) -> CvlStatus
    ensures { Told (part_select_of source.now index.now flags.now from out.old marks.old)
        result (out.old, marks.old, count.old) (out.new, marks.new, count.new) }
{
    told_range::<i32>(
        part_select_permute(from, source, index, flags, out, marks),
        count,
    )
}

/// The booleans whose flag is true and that go to a part's range of a select permute, as `cvl_proved_part_permute_bool`.
#[unsafe(no_mangle)]
pub extern "C" fn cvl_proved_part_select_permute_bool(
    from: usize,
    source: &[u8],
    index: &[i32],
    flags: &[bool],
    out: &mut [u8],
    marks: &mut [u32],
    count: &mut usize,
) -> CvlStatus
    ensures { Told (as_flags_in (part_select_of source.now index.now flags.now from out.old marks.old))
        result (out.old, marks.old, count.old) (out.new, marks.new, count.new) }
{
    told_range::<u8>(
        part_flag_select_permute(from, source, index, flags, out, marks),
        count,
    )
}

/// The integers that go to a part's range of a default permute; the other places of it have the part's defaults.
#[unsafe(no_mangle)]
pub extern "C" fn cvl_proved_part_default_permute_int(
    from: usize,
    source: &[i32],
    index: &[i32],
    defaults: &[i32],
    out: &mut [i32],
    marks: &mut [u32],
    count: &mut usize,
) -> CvlStatus
    ensures { Told (part_default_of source.now index.now from defaults.now out.old marks.old)
        result (out.old, marks.old, count.old) (out.new, marks.new, count.new) }
{
    told_range::<i32>(
        part_default_permute(from, source, index, defaults, out, marks),
        count,
    )
}

/// The booleans that go to a part's range of a default permute, as `cvl_proved_part_permute_bool`; so do the defaults come.
#[unsafe(no_mangle)]
pub extern "C" fn cvl_proved_part_default_permute_bool(
    from: usize,
    source: &[u8],
    index: &[i32],
    defaults: &[u8],
    out: &mut [u8],
    marks: &mut [u32],
    count: &mut usize,
) -> CvlStatus
    ensures { Told (as_flags_in (part_default_of source.now index.now from defaults.now out.old marks.old))
        result (out.old, marks.old, count.old) (out.new, marks.new, count.new) }
{
    told_range::<u8>(
        part_flag_default_permute(from, source, index, defaults, out, marks),
        count,
    )
}

/// Whether the counts of true flags add up to this many places.
#[unsafe(no_mangle)]
pub extern "C" fn cvl_proved_trues_fit(trues: &[i32], places: usize) -> CvlStatus
    ensures { Told (trues_fit_of trues.now places) result tt tt }
{
    told_one(trues_fit(trues, places), &mut ())
}

/// Whether the parts count as many as are wanted.
#[unsafe(no_mangle)]
pub extern "C" fn cvl_proved_all_sent(counts: &[usize], wanted: usize) -> CvlStatus
    ensures { Told (all_sent_of counts.now wanted) result tt tt }
{
    told_one(all_sent(counts, wanted), &mut ())
}

/// Whether the parts count as many as flags are true.
#[unsafe(no_mangle)]
pub extern "C" fn cvl_proved_all_flagged(counts: &[usize], trues: &[i32]) -> CvlStatus
    ensures { Told (all_flagged_of counts.now trues.now) result tt tt }
{
    told_one(all_flagged(counts, trues), &mut ())
}
