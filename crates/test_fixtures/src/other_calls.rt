//! The calls that no script makes as they stand: scans and reduces by the monoid itself, a permute into a room, a pack that gives
//! its lengths too, and the recipes.

ghost use Rattle.std.specs.Prelude.{◌≤◌, length, sum};
ghost use Rattle.cvl_base.specs.Limits.{most_elements};

use cvl_base::monoids::Add;
use cvl_base::{Config, Memory, Refused};
use elementwise::int_from_bool;
use pack_dist::seg_pack;
use permutes::simple_over;
use recipes::{line_of_sight, sparse_matvec};
use scan_ops::{reduce, scan, seg_reduce, seg_scan};
use segdes::SegDes;
use shell::OpenGate;
use std::thread::Threads;

/// A call.
#[derive(Drop)]
pub enum Call {
    Scan,
    Reduce,
    SegScan,
    SegReduce,
    SimpleOver,
    SegPack,
    Product,
    Sight,
}

/// The five numbers.
const XS: &[i32] = &[3, 1, 7, 0, 4];

/// What a permute writes into a room.
fn over<A: Memory>(heap: A) -> Result<Vec<i32, A>, Refused> {
    let mut room = vec![in heap; -7; 3]?;
    simple_over(heap, &[10, 20, 30], &[2, 0, 1], &mut room)?;
    Ok(room)
}

/// What a pack of segments gives: the values and then the lengths.
fn packed<R: Threads + Sync, A: Memory>(
    rt: &R,
    heap: A,
    config: Config,
    d: &SegDes<A>,
) -> Result<Vec<i32, A>, Refused>
    requires few { length d.now ≤ most_elements }
    requires in_limit { sum d.now ≤ most_elements }
{
    let flags = &[true, false, true, true, false];
    let (mut values, lengths) = seg_pack(rt, heap, config, XS, flags, d, &OpenGate)?;
    values.extend_from_slice(lengths.lengths())?;
    Ok(values)
}

/// The product of a matrix of three rows and a vector.
fn product<R: Threads + Sync, A: Memory>(
    rt: &R,
    heap: A,
    config: Config,
) -> Result<Vec<i32, A>, Refused> {
    let lens = vec![in heap; 2, 0, 2]?;
    let cols = vec![in heap; 0, 2, 1, 2]?;
    let vals = vec![in heap; 2, 1, 3, 4]?;
    let x = vec![in heap; 1, 2, 3]?;
    sparse_matvec(rt, heap, config, lens, cols, vals, x)
}

/// Which places of a line of altitudes are visible, as numbers. The last of them is steeper by a third than the one before, which
/// slopes that are cut short do not show.
fn sight<R: Threads + Sync, A: Memory>(
    rt: &R,
    heap: A,
    config: Config,
) -> Result<Vec<i32, A>, Refused> {
    let visible = line_of_sight(rt, heap, config, vec![in heap; 0, 2, 1, 7, 2]?)?;
    Ok(int_from_bool(rt, heap, config, &visible)?)
}

/// What a call gives on five numbers in three segments, by three workers in tiles of one element. A number becomes a vector of
/// it.
pub fn answer_of<R: Threads + Sync, A: Memory>(
    rt: &R,
    heap: A,
    call: &Call,
) -> Result<Vec<i32, A>, Refused> {
    let config = Config::new(1, 3).unwrap();
    let d = SegDes::from_lengths(heap, &[2, 0, 3])?;
    match call {
        Call::Scan => Ok(scan::<R, A, Add, OpenGate>(rt, heap, config, XS, &OpenGate)?),
        Call::Reduce => Ok(vec![in heap;
            reduce::<R, A, Add, OpenGate>(rt, heap, config, XS, &OpenGate)?,
        ]?),
        Call::SegScan => seg_scan::<R, A, Add, OpenGate>(rt, heap, config, XS, &d, &OpenGate),
        Call::SegReduce => seg_reduce::<R, A, Add, OpenGate>(rt, heap, config, XS, &d, &OpenGate),
        Call::SimpleOver => over(heap),
        Call::SegPack => packed(rt, heap, config, &d),
        Call::Product => product(rt, heap, config),
        Call::Sight => sight(rt, heap, config),
    }
}
