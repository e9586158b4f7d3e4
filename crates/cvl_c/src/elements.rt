//! Counts, single elements, and vectors of a given length: of whole vectors.

ghost use Rattle.std.specs.Prelude.{Ok, pos};
ghost use Rattle.cvl_base.specs.Distributes.{distribute_within, index_within};
ghost use Rattle.cvl_base.specs.Extracts.{extract_of, replace_of};
ghost use Rattle.cvl_base.specs.Limits.{most_places};
ghost use Rattle.cvl_base.specs.Packs.{count_of};
ghost use Rattle.c_calls.specs.Calls.{in_limit};
ghost use Rattle.flag_calls.specs.Flags.{as_bytes, extract_flag_of, flags_of};
ghost use Rattle.c_calls.specs.Told.{RoomTold, RoomToldOr, Told};

use c_calls::elements::count;
use c_calls::or_tell;
use c_calls::status::{CvlStatus, done, told, told_one, told_over};
use flag_calls::{flag_of, replace_over};
use pack_dist::{distribute_over, extract, index_over, replace};
use std::alloc::Global;

/// The number of true flags: `cnt_lub`.
#[unsafe(no_mangle)]
pub extern "C" fn cvl_proved_count(flags: &[u8], out: &mut i32) -> CvlStatus
    ensures { Told (in_limit flags.now (Ok (pos (count_of (flags_of flags.now))))) result out.old out.new }
{
    told_one(count(flags), out)
}

/// The integer at the index: `ext_vuz`.
#[unsafe(no_mangle)]
pub extern "C" fn cvl_proved_extract_int(vector: &[i32], index: i32, out: &mut i32) -> CvlStatus
    ensures { Told (extract_of vector.now index) result out.old out.new }
{
    told_one(extract(vector, index), out)
}

/// The flag at the index: `ext_vub`.
#[unsafe(no_mangle)]
pub extern "C" fn cvl_proved_extract_bool(vector: &[u8], index: i32, out: &mut bool) -> CvlStatus
    ensures { Told (extract_flag_of vector.now index) result out.old out.new }
{
    *out = flag_of(or_tell!(extract(vector, index)));
    done()
}

/// The integers with another one at the index: `rep_vuz`.
#[unsafe(no_mangle)]
pub extern "C" fn cvl_proved_replace_int(
    alloc: Global,
    vector: &[i32],
    index: i32,
    value: i32,
    out: &mut [i32],
) -> CvlStatus
    ensures { RoomToldOr (replace_of vector.now index value) result out.old out.new }
{
    told(replace(alloc, vector, index, value), out)
}

/// The flags with another one at the index: `rep_vub`.
#[unsafe(no_mangle)]
pub extern "C" fn cvl_proved_replace_bool(
    vector: &[u8],
    index: i32,
    value: bool,
    out: &mut [u8],
) -> CvlStatus
    ensures { RoomTold (as_bytes (replace_of (flags_of vector.now) index value)) result out.old out.new }
{
    told_over::<u8>(replace_over(vector, index, value, out))
}

/// `count` copies of an integer: `dis_vuz`.
#[unsafe(no_mangle)]
pub extern "C" fn cvl_proved_distribute_int(value: i32, count: i32, out: &mut [i32]) -> CvlStatus
    ensures { RoomTold (distribute_within most_places value count) result out.old out.new }
{
    told_over::<i32>(distribute_over(value, count, out))
}

/// `count` copies of a boolean: `dis_vub`.
#[unsafe(no_mangle)]
pub extern "C" fn cvl_proved_distribute_bool(value: bool, count: i32, out: &mut [bool]) -> CvlStatus
    ensures { RoomTold (distribute_within most_places value count) result out.old out.new }
{
    told_over::<bool>(distribute_over(value, count, out))
}

/// `count` numbers from `init` on in steps of `stride`: `ind_luz`.
#[unsafe(no_mangle)]
pub extern "C" fn cvl_proved_index(init: i32, stride: i32, count: i32, out: &mut [i32]) -> CvlStatus
    ensures { RoomTold (index_within most_places init stride count) result out.old out.new }
{
    told_over::<i32>(index_over(init, stride, count, out))
}
