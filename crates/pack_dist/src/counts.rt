//! How many flags are true: of all, before each tile, and of each segment.

ghost use Rattle.std.specs.Prelude.{◌≡◌, ◌≤◌, pos, IfOk, length, map, sum, unsigned_abs, vec_len};
ghost use Rattle.cvl_base.specs.Conversions.{integer_of};
ghost use Rattle.cvl_base.specs.Descriptors.{AreLengths};
ghost use Rattle.cvl_base.specs.Gives.{Gives};
ghost use Rattle.cvl_base.specs.Limits.{most_elements, most_places};
ghost use Rattle.cvl_base.specs.Packs.{count_of};
ghost use Rattle.cvl_base.specs.SegmentedCalls.{seg_count_of};
ghost use Rattle.pack_dist.specs.Kept.{counts_before};

use crew::Gate;
use cvl_base::monoid::know_laws;
use cvl_base::monoids::Add;
use cvl_base::{Config, Memory, NoResources, Refused, true_count};
use scan_walks::Reading;
use segdes::SegDes;
use sharing::Pace;
use std::thread::Threads;
use tile_scans::{befores_of_readings, seg_reduce_readings};

/// Reads a true flag as 1 and a false one as 0, so that the sum of flags is their count.
struct Ones;

impl Reading<bool, i32> for Ones {
    ghost item = { integer_of };

    fn item(flag: bool) -> i32 {
        i32::from(flag)
    }
}

/// The number of true flags: `cnt_lub`.
///
/// There are at most 2,147,483,647 flags. It takes no memory. Source: CVL's count.
pub fn count_true(flags: &[bool]) -> i32
    requires few { length flags.now ≤ most_places }
    ensures { result ≡ pos (count_of flags.now) }
{
    true_count(flags) as i32
}

/// The number of true flags before each tile of the pace's length, where a pack puts what it keeps of the tile. Workers race for
/// the tiles, and pass the gate.
pub(crate) fn counts_before<R: Threads + Sync, A: Memory, G: Gate>(
    rt: &R,
    alloc: A,
    pace: Pace,
    flags: &[bool],
    gate: &G,
) -> Result<Vec<i32, A>, NoResources>
    requires in_limit { length flags.now ≤ most_elements }
    ensures { IfOk result (λ before. before.items ≡ counts_before flags.now pace.tile) }
{
    know_laws::<Add>();
    befores_of_readings::<R, A, Add, bool, Ones, G>(rt, alloc, pace, flags, gate)
}

/// The number of true flags of each segment, which is how much a segmented pack keeps of it: `cnt_leb`.
///
/// The result has one number for each segment, even if empty, and you can make it a descriptor. `LengthMismatch`, without a
/// place, if the segments' total is not the number of flags. Source: CVL's segmented count.
///
/// Workers who race pass `gate` at each point of their way through a tile.
pub fn seg_count<R: Threads + Sync, A: Memory, G: Gate>(
    rt: &R,
    alloc: A,
    config: Config,
    flags: &[bool],
    d: &SegDes<A>,
    gate: &G,
) -> Result<Vec<i32, A>, Refused>
    requires few { length d.now ≤ most_elements }
    requires in_limit { sum d.now ≤ most_elements }
    ensures values { Gives (λ counts. map unsigned_abs counts.items) result
        (seg_count_of flags.now d.now) }
    ensures lengths { IfOk result (λ counts. AreLengths counts.items) }
    ensures one_each { IfOk result (λ counts. vec_len counts ≡ length d.now) }
{
    seg_reduce_readings::<R, A, Add, bool, Ones, G>(rt, alloc, config, flags, d, gate)
}
