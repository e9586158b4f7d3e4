//! Scan boards: seats whose workers take their steps in turn, two threads of the caller's own, and a worker that stands still.

ghost use Rattle.boards.specs.Boards.{IsSeatOf};

use crate::counter::Counter;
use crate::crews::are_summed;
use crate::tiles::CountedTiles;
use boards::{Back, Claim, ScanBoard, ScanSeat};
use cvl_base::monoids::Add;
use cvl_base::{Config, Memory, NoResources};
use refusing_memory::Refusing;
use sharing::all_workers;
use status_word::Status;
use std::test::Fail;
use std::thread::{Threads, join_mut};

/// Whether a look-back answered this sum, without a start, after so many looks.
fn is_back(back: Back<i32>, sum: i32, looks: u32) -> bool {
    back.before == (false, sum) && back.looks == looks
}

/// Whether each answer of two workers over tiles of 3, 1, 7 and 0 is the one worked out by hand. What one tells of a tile, the
/// other one sees, and no prefix is taken back. If something is told of a tile, it is not added up.
pub fn answers_by_hand<A: Memory>(alloc: A) -> Result<bool, NoResources> {
    let counter = Counter::new(0);
    let tiles = CountedTiles::new(&[3, 1, 7, 0], &counter);
    let (board, mut seats) = ScanBoard::new(alloc, tiles, 2)?;
    let (Some(mut second), Some(mut first)) = (seats.pop(), seats.pop()) else {
        return Ok(false);
    };
    let back = board.look_back(&mut first, 2);
    board.tell_prefix(&mut first, 2, back.before);
    let told = board.look(&mut first, 2);
    board.tell_sum(&mut second, 2);
    let kept = board.look(&mut first, 2);
    let sum = board.look(&mut second, 0);
    let before = counter.count();
    let onward = board.look_back(&mut second, 3);
    let again = board.look_back(&mut second, 2);
    let are_seen = told == Status::Prefix(false, 11)
        && kept == told
        && sum == Status::Sum(false, 3);
    let are_backs = is_back(back, 4, 2) && is_back(onward, 11, 1) && is_back(again, 4, 2);
    Ok(are_seen && are_backs && counter.count() == before)
}

/// How many tiles there are for threads, of a 1 each.
const TILES: usize = 1_000;

/// How often a worker claims: for each tile, and 1,000 times and more after it was told that none is left.
const CLAIMS: u32 = 2_001;

/// One worker's part: it claims tiles, and tells the sum and the prefix of each. Returns whether each look-back was right, and
/// each claim after the answer that no tile is left got it again.
fn work<A: Memory>(board: &ScanBoard<CountedTiles<'_>, A>, seat: &mut ScanSeat<Add>) -> bool
    requires { IsSeatOf board.now seat.old }
    ensures { IsSeatOf board.now seat.new }
{
    let mut right = true;
    let mut done = false;
    for _claim in 0..CLAIMS {
        if let Claim::Tile(t) = board.claim(seat) {
            board.tell_sum(seat, t);
            let back = board.look_back(seat, t);
            board.tell_prefix(seat, t, back.before);
            right &= !done && i64::from(back.before.1) == i64::from(t);
        } else {
            done = true;
        }
    }
    right && done
}

/// Two workers' parts, each in a thread of its own, and whether both are right.
fn in_two_threads<R: Threads + Sync, A: Memory>(
    rt: &R,
    board: &ScanBoard<CountedTiles<'_>, A>,
    first: &mut ScanSeat<Add>,
    second: &mut ScanSeat<Add>,
) -> bool
    requires first { IsSeatOf board.now first.old }
    requires second { IsSeatOf board.now second.old }
    ensures first { IsSeatOf board.now first.new }
    ensures second { IsSeatOf board.now second.new }
{
    let mut first_half = || -> bool
        requires { IsSeatOf board.now first.now }
        ensures { IsSeatOf board.entry.now first.exit.now }
    { work(board, first) };
    let mut second_half = || -> bool
        requires { IsSeatOf board.now second.now }
        ensures { IsSeatOf board.entry.now second.exit.now }
    { work(board, second) };
    let (first_right, second_right) = join_mut(rt, &mut first_half, &mut second_half);
    first_right && second_right
}

/// How many tiles two workers, each in a thread of its own, were given beside a third one, which claims once and stops for ever
/// or never claims; and whether both are right.
fn by_two_threads<R: Threads + Sync, A: Memory>(
    rt: &R,
    alloc: A,
    counter: &Counter,
    stops: bool,
) -> Result<(u32, bool), NoResources> {
    let ones = [1; TILES];
    let tiles = CountedTiles::new(ones.as_slice(), counter);
    let (board, mut seats) = ScanBoard::new(alloc, tiles, 3)?;
    let (Some(mut third), Some(mut second), Some(mut first)) = (
        seats.pop(),
        seats.pop(),
        seats.pop(),
    ) else {
        return Ok((0, false));
    };
    if stops {
        let _claim = board.claim(&mut third);
    }
    let right = in_two_threads(rt, &board, &mut first, &mut second);
    let mut seats = Vec::with_capacity(alloc, 3)?;
    seats.push_reserved(first);
    seats.push_reserved(second);
    seats.push_reserved(third);
    Ok((board.close(seats).given, right))
}

/// Beside a worker that has stopped, twenty times; and beside one that never claims, while a worker stands still inside a call of
/// the board. That one holds up no other: the other one is given all other tiles, each of which is added up once for its sum and
/// once for its prefix. And on a board without tiles each of 64 seats is told so at once.
#[test]
fn workers_in_threads(rt: HostRuntime) -> Result<(), Fail> {
    let heap = Refusing::none(rt.alloc());
    for _ in 0..20 {
        let told = by_two_threads(&rt, &heap, &Counter::new(0), true);
        assert_eq!(rt; told, Ok((1000, true)));
    }
    let counter = Counter::new(1 + 2 * 999);
    let told = by_two_threads(&rt, &heap, &counter, false);
    assert_eq!(rt; told, Ok((1000, true)));
    assert!(rt; !counter.is_overdue());
    assert!(rt; are_summed(&rt, &heap, all_workers(Config::new(1, 64)?), 0)?);
    Ok(())
}
