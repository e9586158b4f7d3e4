//! How many flags are true: of all, and of each segment.

ghost use Rattle.std.specs.Prelude.{◌≡◌, ◌≤◌, [], count_by, length, map, sum, unsigned_abs};
ghost use Rattle.cvl_base.specs.Descriptors.{AreLengthsWithin};
ghost use Rattle.cvl_base.specs.Limits.{most_places};
ghost use Rattle.cvl_base.specs.Nests.{cut_of};
ghost use Rattle.cvl_base.specs.Packs.{count_of};
ghost use Rattle.cvl_base.specs.Rooms.{Overwrites, in_room};
ghost use Rattle.cvl_base.specs.SegmentedCalls.{counts_of};
ghost use Rattle.flag_calls.specs.Flags.{count_in, flag_of, flags_of};
ghost use Rattle.fresh.specs.Places.{with_items};

use crate::flags::{byte_of, flag_of};
use cvl_base::{Fault, check_agree};
use fresh::{Run, fill_slice};
use segdes::SegLengths;

/// The most bytes of a block. A byte can count them.
const BLOCK: usize = 128;

/// Fewer bytes than this are counted one by one.
const SHORT: usize = 32;

/// How many bytes of a block are true.
// A byte counts them, so that the compiler takes sixteen at a time.
fn true_in_block(block: &[u8]) -> u8
    requires { length block.now ≤ 128 }
    ensures { result ≡ count_by flag_of block.now }
{
    let mut count = 0;
    for byte in block {
        count += byte_of(flag_of(*byte));
    }
    count
}

/// The same for up to 2,147,483,647 bytes, one by one.
fn true_one_by_one(bytes: &[u8]) -> u32
    requires { length bytes.now ≤ most_places }
    ensures { result ≡ count_by flag_of bytes.now }
{
    let mut count = 0;
    for byte in bytes {
        count += u32::from(byte_of(flag_of(*byte)));
    }
    count
}

/// How many of at most 2,147,483,647 bytes are true.
fn true_count(bytes: &[u8]) -> usize
    requires few { length bytes.now ≤ most_places }
    ensures value { result ≡ count_of (flags_of bytes.now) }
    ensures in_length { result ≤ length bytes.now }
{
    let (mut count, mut rest) = (0, bytes);
    while rest.len() >= SHORT {
        let (block, others) = rest.split_at(rest.len().min(BLOCK));
        count += usize::from(true_in_block(block));
        rest = others;
    }
    count + true_one_by_one(rest) as usize
}

/// The number of true flags, of at most 2,147,483,647 flags: `cnt_lub`.
pub fn count(flags: &[u8]) -> i32
    requires few { length flags.now ≤ most_places }
    ensures { result ≡ count_in flags.now }
{
    true_count(flags) as i32
}

/// Writes how many bytes of each segment are true, one segment after another; `lengths` are the segments', and the bytes begin
/// with theirs. The run must have room for as many counts.
fn counts_into(run: Run<i32>, lengths: &[i32], bytes: &[u8]) -> Run<i32>
    requires lengths { AreLengthsWithin most_places lengths.now }
    requires covered { sum (map unsigned_abs lengths.now) ≤ length bytes.now }
    requires room { length lengths.now ≤ run.room }
    requires few { length bytes.now ≤ most_places }
    ensures { result ≡ with_items run (map count_in (cut_of (map unsigned_abs lengths.now) bytes.now)) }
{
    let (mut run, mut rest) = (run, bytes);
    for length in lengths {
        let (segment, others) = rest.split_at(*length as usize);
        run.push(count(segment));
        rest = others;
    }
    run
}

/// The number of true flags of each segment, into a room: `cnt_leb`. `LengthMismatch`, without a place, if the segments' total is
/// not the number of flags, or the room hasn't one place for each segment.
pub fn seg_count_over(flags: &[u8], d: &SegLengths, out: &mut [i32]) -> Result<(), Fault>
    ensures { Overwrites (in_room (length out.old) (counts_of (flags_of flags.now) d.now)) result out.old out.new }
{
    d.check_total(flags)?;
    check_agree(d.count(), out.len())?;
    let lengths = d.lengths();
    fill_slice(
        out,
        |run: Run<i32>| -> Run<i32>
            requires { (run.items ≡ []) × (run.room ≡ length lengths.now) × AreLengthsWithin most_places lengths.now
                × (sum (map unsigned_abs lengths.now) ≡ length flags.now) × (length flags.now ≤ most_places) }
            ensures { result ≡ with_items run (map count_in (cut_of (map unsigned_abs lengths.entry.now) flags.entry.now)) }
        { counts_into(run, lengths, flags) },
    );
    Ok(())
}
