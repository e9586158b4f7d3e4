//! Descriptors, given as lengths.

ghost use Rattle.std.specs.Prelude.{Ok, sum};
ghost use Rattle.c_calls.specs.Calls.{by_segments};
ghost use Rattle.c_calls.specs.Told.{Told};

use c_calls::descriptors::total;
use c_calls::status::{CvlStatus, told_one};

/// Whether the numbers are the lengths of a descriptor, and how many elements its segments have in all: `mke_fov`.
#[unsafe(no_mangle)]
pub extern "C" fn cvl_proved_make_descriptor(lengths: &[i32], total_out: &mut usize) -> CvlStatus
    ensures { Told (by_segments lengths.now (λ d. Ok (sum d))) result total_out.old total_out.new }
{
    told_one(total(lengths), total_out)
}
