//! One range of the room of a combining permute, and of counts by place.

ghost use Rattle.std.specs.Prelude.{length};
ghost use Rattle.c_calls.specs.Calls.{by_operator};
ghost use Rattle.c_calls.specs.Numbers.{bool_binary, int_monoid};
ghost use Rattle.c_calls.specs.Told.{Told};
ghost use Rattle.cvl_base.specs.Scans.{bool_join_of, int_join_of};
ghost use Rattle.part_calls.specs.CombineRanges.{combine_range_of, counts_range_of};

use crate::senders::told_counted;
use c_calls::numbers::operator_of;
use c_calls::or_tell;
use c_calls::status::CvlStatus;
use cvl_base::{BoolBinary, IntMonoid};
use part_calls::combine_ranges::{
    bool_combine_range_checked, counts_range_checked, int_combine_range_checked,
};

/// Joins what stands in one range of the room, from place `lowest` on, with each integer whose index names a place of it, and
/// counts these.
#[unsafe(no_mangle)]
pub extern "C" fn cvl_proved_combine_permute_int_range(
    op: u32,
    source: &[i32],
    index: &[i32],
    lowest: usize,
    out: &mut [i32],
    named: &mut usize,
) -> CvlStatus
    ensures { Told (by_operator (int_monoid op) (λ o. combine_range_of (int_join_of o) source.now index.now lowest out.old))
        result (out.old, named.old) (out.new, named.new) }
{
    let operator = or_tell!(operator_of::<IntMonoid>(op));
    told_counted::<i32>(
        int_combine_range_checked(operator, source, index, lowest, out),
        named,
    )
}

/// The same for booleans.
#[unsafe(no_mangle)]
pub extern "C" fn cvl_proved_combine_permute_bool_range(
    op: u32,
    source: &[bool],
    index: &[i32],
    lowest: usize,
    out: &mut [bool],
    named: &mut usize,
) -> CvlStatus
    ensures { Told (by_operator (bool_binary op) (λ o. combine_range_of (bool_join_of o) source.now index.now lowest out.old))
        result (out.old, named.old) (out.new, named.new) }
{
    let operator = or_tell!(operator_of::<BoolBinary>(op));
    told_counted::<bool>(
        bool_combine_range_checked(operator, source, index, lowest, out),
        named,
    )
}

/// How many indices name each place of one range, from place `lowest` on, and how many name one of it.
#[unsafe(no_mangle)]
pub extern "C" fn cvl_proved_counts_range(
    index: &[i32],
    lowest: usize,
    out: &mut [i32],
    named: &mut usize,
) -> CvlStatus
    ensures { Told (counts_range_of index.now lowest (length out.old)) result (out.old, named.old) (out.new, named.new) }
{
    told_counted::<i32>(counts_range_checked(index, lowest, out), named)
}
