//! Least boards: two seats whose workers take their steps in turn. The program of `embedding` has one in two threads.

use boards::{LeastBoard, Targets};
use cvl_base::{Memory, NoResources};
use tile_plan::Plan;

/// Eight places, all in the first of two slots.
#[derive(Drop)]
struct AllInFirst;

impl Targets for AllInFirst {
    ghost use Rattle.std.specs.Prelude.{Some, replicate};

    ghost targets = { λ _. replicate 8 (Some 0) };

    ghost slot_count = { λ _. 2 };

    fn places(&self) -> u32 {
        8
    }

    fn slots(&self) -> u32 {
        2
    }

    fn slot(&self, _place: u32) -> Option<u32> {
        Some(0)
    }
}

/// Whether each answer of two workers is the one worked out by hand, for eight places that are all in the first of two slots:
/// each worker sees what the other one lowers, and a greater place changes nothing. In the second slot no place is lowered.
pub fn answers_by_hand<A: Memory>(alloc: A) -> Result<bool, NoResources> {
    let (board, mut seats) = LeastBoard::new(alloc, AllInFirst, Plan::new(8, 2), 2)?;
    let (Some(mut second), Some(mut first)) = (seats.pop(), seats.pop()) else {
        return Ok(false);
    };
    let none = board.least(&mut second, 0);
    board.lower(&mut first, 0, 7);
    let told = board.least(&mut second, 0);
    board.lower(&mut second, 0, 3);
    board.lower(&mut first, 0, 5);
    let (mine, theirs) = (board.least(&mut second, 0), board.least(&mut first, 0));
    let mut seats = Vec::with_capacity(alloc, 2)?;
    seats.push_reserved(first);
    seats.push_reserved(second);
    let leasts = board.close(seats);
    let answers = [none, told, mine, theirs, leasts.get(0), leasts.get(1)];
    Ok(answers == [None, Some(7), Some(3), Some(3), Some(3), None])
}
