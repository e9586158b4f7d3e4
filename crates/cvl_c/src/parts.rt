//! What one part of a call needs and the whole doesn't: sums that continue from what stands before the part, one range of a
//! permute's result, and one piece of a text.

ghost use Rattle.std.specs.Prelude.{ℕ, List, Ok, Result, length};
ghost use Rattle.cvl_base.specs.declared.fault.Fault.{Fault};
ghost use Rattle.cvl_base.specs.Exact.{total_of};
ghost use Rattle.c_calls.specs.Told.{FrontToldOr, RoomTold, Told, front_of};
ghost use Rattle.part_calls.specs.Limits.{few_enough};
ghost use Rattle.part_calls.specs.Pieces.{piece_of};
ghost use Rattle.part_calls.specs.Ranges.{WritesRange, select_range_of, simple_range_of};
ghost use Rattle.part_calls.specs.Sums.{checked_scan_after};

use c_calls::status::{CvlStatus, done, status_of, told_in_front, told_one, told_over};
use cvl_base::Fault;
use part_calls::carries::{checked_scan_from, exact_sum};
use part_calls::permute_ranges::{select_range, simple_range};
use part_calls::text_pieces::read_piece;
use std::alloc::Global;

/// The status of a call that may write a range of a permute, and the number of its places.
pub(crate) fn told_range<T>(answer: Result<usize, Fault>, written: &mut usize) -> CvlStatus
    ensures { (meaning : Result (List T × List ℕ × ℕ) Fault) (out now : List T) (marks marked : List ℕ)
        → WritesRange meaning answer (out, marks) (now, marked)
        → Told meaning result (out, marks, written.old) (now, marked, written.new) }
{
    match answer {
        Ok(count) => {
            *written = count;
            done()
        }
        Err(fault) => status_of(fault.into()),
    }
}

/// The sum of the integers, in 64 bits, where it always fits: what one part of a checked sum hands to the next.
#[unsafe(no_mangle)]
pub extern "C" fn cvl_proved_exact_sum(a: &[i32], out: &mut i64) -> CvlStatus
    ensures { Told (few_enough (length a.now) (Ok (total_of a.now))) result out.old out.new }
{
    told_one(exact_sum(a), out)
}

/// At each place `before` plus the integers before the place, which never wraps.
#[unsafe(no_mangle)]
pub extern "C" fn cvl_proved_checked_scan_after(
    before: i64,
    a: &[i32],
    out: &mut [i32],
) -> CvlStatus
    ensures { RoomTold (few_enough (length a.now) (checked_scan_after before a.now)) result out.old out.new }
{
    told_over::<i32>(checked_scan_from(&before, a, out))
}

/// The integers that go to one range of a simple permute's result, from place `lowest` on, with a bit for each place of it.
#[unsafe(no_mangle)]
pub extern "C" fn cvl_proved_permute_int_range(
    source: &[i32],
    index: &[i32],
    lowest: usize,
    out: &mut [i32],
    marks: &mut [u32],
    written: &mut usize,
) -> CvlStatus
    ensures { Told (simple_range_of source.now index.now lowest out.old marks.old)
        result (out.old, marks.old, written.old) (out.new, marks.new, written.new) }
{
    told_range::<i32>(simple_range(source, index, lowest, out, marks), written)
}

/// The same for booleans, whose bytes are moved as they are.
#[unsafe(no_mangle)]
pub extern "C" fn cvl_proved_permute_bool_range(
    source: &[u8],
    index: &[i32],
    lowest: usize,
    out: &mut [u8],
    marks: &mut [u32],
    written: &mut usize,
) -> CvlStatus
    ensures { Told (simple_range_of source.now index.now lowest out.old marks.old)
        result (out.old, marks.old, written.old) (out.new, marks.new, written.new) }
{
    told_range::<u8>(simple_range(source, index, lowest, out, marks), written)
}

/// The integers that go to one range of a select permute's result, from place `lowest` on, with a bit for each place of it.
#[unsafe(no_mangle)]
pub extern "C" fn cvl_proved_select_permute_int_range(
    source: &[i32],
    index: &[i32],
    flags: &[bool],
    lowest: usize,
    out: &mut [i32],
    marks: &mut [u32],
    written: &mut usize,
) -> CvlStatus
    ensures { Told (select_range_of source.now index.now flags.now lowest out.old marks.old)
        result (out.old, marks.old, written.old) (out.new, marks.new, written.new) }
{
    told_range::<i32>(
        select_range(source, index, flags, lowest, out, marks),
        written,
    )
}

/// The same for booleans, whose bytes are moved as they are.
#[unsafe(no_mangle)]
pub extern "C" fn cvl_proved_select_permute_bool_range(
    source: &[u8],
    index: &[i32],
    flags: &[bool],
    lowest: usize,
    out: &mut [u8],
    marks: &mut [u32],
    written: &mut usize,
) -> CvlStatus
    ensures { Told (select_range_of source.now index.now flags.now lowest out.old marks.old)
        result (out.old, marks.old, written.old) (out.new, marks.new, written.new) }
{
    told_range::<u8>(
        select_range(source, index, flags, lowest, out, marks),
        written,
    )
}

/// The integers of a piece of a text, after as many words of the pieces before it; a fault has its place in the whole.
#[unsafe(no_mangle)]
pub extern "C" fn cvl_proved_read_ints_after(
    alloc: Global,
    before: usize,
    text: &[u8],
    out: &mut [i32],
    count: &mut usize,
) -> CvlStatus
    ensures { FrontToldOr (piece_of before text.now) result (front_of out.old count.old) (front_of out.new count.new) }
{
    told_in_front(read_piece(alloc, before, text), out, count)
}
