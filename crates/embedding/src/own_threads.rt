//! A board that threads of one's own share: they look for the first number of each sign in a list.

ghost use Rattle.std.specs.Prelude.{◌≡◌, ◌<◌, ◌≤◌, Some, length, map};
ghost use Rattle.boards.specs.LeastBoards.{IsLeastSeatOf};
ghost use Rattle.cvl_base.specs.Limits.{most_elements};
ghost use Rattle.tile_plan.specs.Ranges.{tile_count};
ghost use Rattle.embedding.specs.Signs.{slot_of};

use boards::{Claim, LeastBoard, LeastSeat, Targets};
use cvl_base::{Memory, NoResources};
use std::alloc::Allocator;
use std::thread::{Threads, join_mut};
use tile_plan::Plan;

/// The numbers, each in the slot of its sign: 0 for those below zero, 1 for zero, and 2 for those above.
#[derive(Drop)]
struct Signs<'a> {
    numbers: &'a [i32],
    ghost few: { length numbers.now ≤ most_elements },
}

/// The slot of a number.
fn slot_of_number(number: &i32) -> u32
    ensures value { result ≡ slot_of number.now }
    ensures within { result < 3 }
{
    if *number < 0 {
        0
    } else if *number == 0 {
        1
    } else {
        2
    }
}

impl Targets for Signs<'_> {
    ghost targets = { λ signs. map (λ x. Some (slot_of x)) signs.numbers.now };

    ghost slot_count = { λ _. 3 };

    fn places(&self) -> u32 {
        self.numbers.len() as u32
    }

    fn slots(&self) -> u32 {
        3
    }

    fn slot(&self, place: u32) -> Option<u32> {
        Some(slot_of_number(&self.numbers[place as usize]))
    }
}

/// What the threads share: the board, and the tiles into which the numbers are cut.
#[derive(Drop)]
struct Shared<'a, 'b, A: Allocator> {
    board: &'a LeastBoard<Signs<'b>, A>,
    numbers: &'b [i32],
    plan: Plan,
    ghost targets: { board.now.targets ≡ map (λ x. Some (slot_of x)) numbers.now },
    ghost slots: { board.now.slots ≡ 3 },
    ghost tiles: { board.now.tiles ≡ tile_count plan.len plan.tile },
    ghost places: { plan.len ≡ length numbers.now },
}

impl<'a, 'b, A: Memory> Shared<'a, 'b, A> {
    /// Lowers each place of a tile, in the slot of its number.
    fn lower_each(&self, seat: &mut LeastSeat, from: u32, to: u32)
        requires seat { IsLeastSeatOf self.now.board.now seat.old }
        requires within { to ≤ length self.now.numbers.now }
        ensures { IsLeastSeatOf self.now.board.now seat.new }
    {
        for place in from..to {
            let slot = slot_of_number(&self.numbers[place as usize]);
            self.board.lower(seat, slot, place);
        }
    }

    /// What one thread does: it claims tiles until none is left.
    fn work(&self, seat: &mut LeastSeat)
        requires { IsLeastSeatOf self.now.board.now seat.old }
        ensures { IsLeastSeatOf self.now.board.now seat.new }
    {
        for _ in 0..=self.plan.count() {
            let Claim::Tile(t) = self.board.claim(seat) else {
                return;
            };
            let (from, to) = self.plan.range(t);
            self.lower_each(seat, from, to);
        }
    }

    /// Two threads at work, each with a seat of its own.
    fn in_two_threads<R: Threads + Sync>(
        &self,
        rt: &R,
        first: &mut LeastSeat,
        second: &mut LeastSeat,
    )
        requires first { IsLeastSeatOf self.now.board.now first.old }
        requires second { IsLeastSeatOf self.now.board.now second.old }
        ensures first { IsLeastSeatOf self.now.board.now first.new }
        ensures second { IsLeastSeatOf self.now.board.now second.new }
    {
        let mut first_half = ||
            requires { IsLeastSeatOf self.now.board.now first.now }
            ensures { IsLeastSeatOf self.entry.now.board.now first.exit.now }
        { self.work(first) };
        let mut second_half = ||
            requires { IsLeastSeatOf self.now.board.now second.now }
            ensures { IsLeastSeatOf self.entry.now.board.now second.exit.now }
        { self.work(second) };
        join_mut(rt, &mut first_half, &mut second_half);
    }
}

/// The places of the first number below zero, the first zero and the first number above, which two threads look for in tiles of
/// 16 numbers.
pub fn first_of_each_sign<R: Threads + Sync, A: Memory>(
    rt: &R,
    alloc: A,
    numbers: &[i32],
) -> Result<[Option<u32>; 3], NoResources>
    requires { length numbers.now ≤ most_elements }
{
    let plan = Plan::new(numbers.len() as u32, 16);
    let (board, mut seats) = LeastBoard::new(alloc, Signs { numbers }, plan, 2)?;
    let (Some(mut second), Some(mut first)) = (seats.pop(), seats.pop()) else {
        return Ok([None; 3]);
    };
    let shared = Shared {
        board: &board,
        numbers,
        plan,
    };
    shared.in_two_threads(rt, &mut first, &mut second);
    let mut seats = Vec::with_capacity(alloc, 2)?;
    seats.push_reserved(first);
    seats.push_reserved(second);
    let leasts = board.close(seats);
    Ok([leasts.get(0), leasts.get(1), leasts.get(2)])
}
