//! What one of several threads does in an order or a sort: the bits of its keys, keys beside their places or values, a block by a
//! digit, one range of a pass's result, and places alone, or keys and values. The driver runs them. A step whose operands do not
//! agree reports `LengthMismatch`, without a place, and writes nothing.

ghost use Rattle.std.specs.Prelude.{◌≡◌, ◌≢◌, ◌+◌, ◌^◌, ◌≤◌, false, length, map, IsTrue, MatchResult, Ok};
ghost use Rattle.std.specs.List.{enumerate_from, flat_map, range_with_len};
ghost use Rattle.c_calls.specs.Calls.{in_limit};
ghost use Rattle.c_calls.specs.Told.{Told, done, status_of_fault};
ghost use Rattle.cvl_base.specs.declared.fault.FaultNo.TheVariants as no;
ghost use Rattle.cvl_base.specs.Faults.{fault};
ghost use Rattle.cvl_base.specs.Limits.{most_places};
ghost use Rattle.digit_partitions.specs.Ends.{digit_ends};
ghost use Rattle.digit_partitions.specs.Partitions.{partitioned};
ghost use Rattle.digit_partitions.specs.Pieces.{IsRange, digit_piece};
ghost use Rattle.orders.specs.SortsByKey.{inverted};
ghost use Rattle.sort_parts.specs.Passes.{key_bits_of};
ghost use Rattle.stable_sorts.specs.Placed.{with_key, with_values};
ghost use Rattle.stable_sorts.specs.Steps.{IsBlock, digit_of_pass};

use c_calls::checks::check_limit;
use c_calls::or_tell;
use c_calls::status::{CvlStatus, done};
use cvl_base::{Fault, FaultNo};
use digit_partitions::gather_pieces;
use sort_parts::key_bits;
use stable_sorts::{
    Ascending, DIGITS, Descending, Placed, key_block, keys_and_values_of, placed_from,
    placed_values, places_of,
};

/// Checks that the operands of a step agree, else `LengthMismatch`, without a place.
fn check_step(agrees: bool) -> Result<(), Fault>
    ensures { MatchResult result (λ _. IsTrue agrees) (λ f. (f ≡ fault no.LengthMismatch) × (agrees ≡ false)) }
{
    if !agrees {
        return Err(Fault::new(FaultNo::LengthMismatch));
    }
    Ok(())
}

/// Tells whether the operands of a step agree: for the blocks, whose clauses a search would unfold digit by digit, so that their
/// proofs cite these.
fn told_step(agree: bool) -> CvlStatus
    ensures done { IsTrue agree → result ≡ done }
    ensures refused { agree ≡ false → result ≡ status_of_fault (fault no.LengthMismatch) }
    ensures agree { result ≡ done → IsTrue agree }
    ensures differ { result ≢ done → agree ≡ false }
{
    or_tell!(check_step(agree));
    done()
}

/// The bits that are set in all of a part's keys, and those that are set in any. `TooLong`, without a place, if there are more
/// than 2,147,483,647 keys; both are as before then.
#[unsafe(no_mangle)]
pub extern "C" fn cvl_proved_key_bits(keys: &[i32], all: &mut i32, any: &mut i32) -> CvlStatus
    ensures { Told (in_limit keys.now (Ok (key_bits_of keys.now))) result (all.old, any.old) (all.new, any.new) }
{
    or_tell!(check_limit(keys));
    let (in_all, in_any) = key_bits(keys);
    *all = in_all;
    *any = in_any;
    done()
}

/// Each key of a block beside its place; the first key stands at place `first`.
#[unsafe(no_mangle)]
pub extern "C" fn cvl_proved_placed_from(
    first: usize,
    keys: &[i32],
    placed: &mut [Placed],
) -> CvlStatus
    ensures done { (length placed.old ≡ length keys.now) × (first + length keys.now ≤ most_places) → result ≡ done }
    ensures written { result ≡ done → placed.new ≡ map with_key (enumerate_from first keys.now) }
    ensures as_before { result ≢ done → placed.new ≡ placed.old }
{
    or_tell!(check_step(placed_from(first, keys, placed)));
    done()
}

/// A block of keys, the first of which stands at place `first`, in the order of a pass's digit, and where each digit ends.
#[unsafe(no_mangle)]
pub extern "C" fn cvl_proved_key_block(
    pass: u32,
    first: usize,
    block: &[i32],
    room: &mut [i32],
    ends: &mut [u32],
) -> CvlStatus
    ensures done { IsBlock pass first (length block.now) (length room.old) (length ends.old) → result ≡ done }
    ensures room { result ≡ done → room.new ≡ partitioned (digit_of_pass pass) (2 ^ 11) block.now }
    ensures ends { result ≡ done → ends.new ≡ map (λ e. first + e) (digit_ends (digit_of_pass pass) (2 ^ 11) block.now) }
    ensures as_before { result ≢ done → (room.new ≡ room.old) × (ends.new ≡ ends.old) }
{
    told_step(key_block::<i32>(pass, first, block, room, ends))
}

/// The same for keys beside their places.
#[unsafe(no_mangle)]
pub extern "C" fn cvl_proved_placed_block(
    pass: u32,
    first: usize,
    block: &[Placed],
    room: &mut [Placed],
    ends: &mut [u32],
) -> CvlStatus
    ensures done { IsBlock pass first (length block.now) (length room.old) (length ends.old) → result ≡ done }
    ensures room { result ≡ done → room.new ≡ partitioned (λ p. digit_of_pass pass p.key) (2 ^ 11) block.now }
    ensures ends { result ≡ done
        → ends.new ≡ map (λ e. first + e) (digit_ends (λ p. digit_of_pass pass p.key) (2 ^ 11) block.now) }
    ensures as_before { result ≢ done → (room.new ≡ room.old) × (ends.new ≡ ends.old) }
{
    told_step(key_block::<Placed>(pass, first, block, room, ends))
}

/// `count` pieces of the blocks, of 2,048 digits each, from number `from` on: digit by digit, and block by block within a digit.
#[unsafe(no_mangle)]
pub extern "C" fn cvl_proved_gather_keys(
    elements: &[i32],
    ends: &[u32],
    blocks: usize,
    from: usize,
    count: usize,
    out: &mut [i32],
) -> CvlStatus
    ensures done { IsRange elements.now ends.now 2048 blocks from count (length out.old) → result ≡ done }
    ensures written { result ≡ done → out.new
        ≡ flat_map (digit_piece elements.now ends.now 2048 blocks) (range_with_len from count) }
    ensures as_before { result ≢ done → out.new ≡ out.old }
{
    or_tell!(check_step(gather_pieces(elements, ends, DIGITS, blocks, from, count, out)));
    done()
}

/// The same for keys beside their places.
#[unsafe(no_mangle)]
pub extern "C" fn cvl_proved_gather_placed(
    elements: &[Placed],
    ends: &[u32],
    blocks: usize,
    from: usize,
    count: usize,
    out: &mut [Placed],
) -> CvlStatus
    ensures done { IsRange elements.now ends.now 2048 blocks from count (length out.old) → result ≡ done }
    ensures written { result ≡ done → out.new
        ≡ flat_map (digit_piece elements.now ends.now 2048 blocks) (range_with_len from count) }
    ensures as_before { result ≢ done → out.new ≡ out.old }
{
    or_tell!(check_step(gather_pieces(elements, ends, DIGITS, blocks, from, count, out)));
    done()
}

/// The places alone.
#[unsafe(no_mangle)]
pub extern "C" fn cvl_proved_places_of(placed: &[Placed], out: &mut [i32]) -> CvlStatus
    ensures done { length out.old ≡ length placed.now → result ≡ done }
    ensures written { result ≡ done → out.new ≡ map (λ p. p.place) placed.now }
    ensures as_before { result ≢ done → out.new ≡ out.old }
{
    or_tell!(check_step(places_of(placed, out)));
    done()
}

/// Each key of a block beside its value.
#[unsafe(no_mangle)]
pub extern "C" fn cvl_proved_placed_values(
    keys: &[i32],
    values: &[i32],
    placed: &mut [Placed],
) -> CvlStatus
    ensures done { (length values.now ≡ length keys.now) × (length placed.old ≡ length keys.now) → result ≡ done }
    ensures written { result ≡ done → placed.new ≡ with_values (λ key. key) keys.now values.now }
    ensures as_before { result ≢ done → placed.new ≡ placed.old }
{
    or_tell!(check_step(placed_values::<Ascending>(keys, values, placed)));
    done()
}

/// The same for a descending sort: each key with its bits inverted.
#[unsafe(no_mangle)]
pub extern "C" fn cvl_proved_placed_values_descending(
    keys: &[i32],
    values: &[i32],
    placed: &mut [Placed],
) -> CvlStatus
    ensures done { (length values.now ≡ length keys.now) × (length placed.old ≡ length keys.now) → result ≡ done }
    ensures written { result ≡ done → placed.new ≡ with_values inverted keys.now values.now }
    ensures as_before { result ≢ done → placed.new ≡ placed.old }
{
    or_tell!(check_step(placed_values::<Descending>(keys, values, placed)));
    done()
}

/// The keys in one room, and their values in another.
#[unsafe(no_mangle)]
pub extern "C" fn cvl_proved_keys_and_values_of(
    placed: &[Placed],
    keys: &mut [i32],
    values: &mut [i32],
) -> CvlStatus
    ensures done { (length keys.old ≡ length placed.now) × (length values.old ≡ length placed.now) → result ≡ done }
    ensures keys { result ≡ done → keys.new ≡ map (λ p. p.key) placed.now }
    ensures values { result ≡ done → values.new ≡ map (λ p. p.place) placed.now }
    ensures as_before { result ≢ done → (keys.new ≡ keys.old) × (values.new ≡ values.old) }
{
    or_tell!(check_step(keys_and_values_of::<Ascending>(placed, keys, values)));
    done()
}

/// The same for a descending sort, whose keys have their bits inverted.
#[unsafe(no_mangle)]
pub extern "C" fn cvl_proved_keys_and_values_of_descending(
    placed: &[Placed],
    keys: &mut [i32],
    values: &mut [i32],
) -> CvlStatus
    ensures done { (length keys.old ≡ length placed.now) × (length values.old ≡ length placed.now) → result ≡ done }
    ensures keys { result ≡ done → keys.new ≡ map (λ p. inverted p.key) placed.now }
    ensures values { result ≡ done → values.new ≡ map (λ p. p.place) placed.now }
    ensures as_before { result ≢ done → (keys.new ≡ keys.old) × (values.new ≡ values.old) }
{
    or_tell!(check_step(keys_and_values_of::<Descending>(placed, keys, values)));
    done()
}
