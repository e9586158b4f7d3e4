//! How the seats of a new board are dealt out, and gathered again when it is closed: for the passes of any board.

ghost use Rattle.std.specs.Prelude.{◌≡◌, ℕ, ◌<◌, ◌≤◌, [], IfOk, length, replicate};
ghost use Rattle.std.specs.List.{All};
ghost use Rattle.atomic_table.specs.Table.{Joins};
ghost use Rattle.least_boards.specs.Joined.{Gathers};
ghost use Rattle.least_boards.specs.Seats.{StandsFor, idle_seat};

use crate::seat::{BoardSeat, Handed};
use atomic_table::{Join, Seat, Shared, Split, TableRule};
use cvl_base::{Memory, NoResources};
use std::alloc::Allocator;

/// How a board's passes are joined, and what one pass and the seats that are left have of all seats.
pub trait Gather<P>: Join<P> {
    ghost use Rattle.std.specs.Prelude.{List};
    ghost use Rattle.least_boards.specs.Seats.{Seated};

    ghost AreJoined: { P → List (Seated P) → List (Seated P) → Type 0 };
}

/// A seat for each worker, cut one by one from the seat that stands for all of them.
pub fn deal_seats<M: Split<P>, P: Handed, K, R: TableRule<(), P, K>, A: Memory>(
    alloc: A,
    table: &Shared<(), P, K, R>,
    workers: u32,
    mut whole: Seat<(), P>,
) -> Result<Vec<BoardSeat<P>, A>, NoResources>
    requires some { 1 ≤ workers }
    requires words { 0 < table.now.table_id.words }
    requires whole { (whole.table_id ≡ table.now.table_id) × (whole.me.1 ≡ []) }
    requires passes { StandsFor P.hand M.left M.right (R.holds table.now.key) whole.me.0 workers }
    ensures { IfOk result (λ v. v.items ≡ replicate workers (idle_seat table.now.table_id (M.right whole.me.0))) }
{
    let mut left = workers;
    let mut seats = Vec::with_capacity(alloc, workers as usize)?;
    while left > 1 {
        let seat = table.split_seat::<M>(&mut whole);
        seats.push(BoardSeat { seat, done: false })?;
        left -= 1;
    }
    let last = BoardSeat {
        seat: whole,
        done: false,
    };
    seats.push(last)?;
    Ok(seats)
}

/// All seats of a board in one.
pub fn join_seats<M: Gather<P>, P: Handed, K, R: TableRule<(), P, K>, A: Allocator>(
    table: &Shared<(), P, K, R>,
    mut seats: Vec<BoardSeat<P>, A>,
) -> Seat<(), P>
    requires words { 0 < table.now.table_id.words }
    requires seats { All (λ seat. seat.id ≡ table.now.table_id) seats.items }
    requires some { 1 ≤ length seats.items }
    requires joins { (p q : P) (id other : ℕ) → 1 ≤ (P.hand p).share
        → Joins (R.holds table.now.key) id p other q (M.both p q) M.spent }
    requires passes { Gathers P.hand M.both M.AreJoined }
    ensures seat { (result.table_id ≡ table.now.table_id) × (result.me.1 ≡ []) }
    ensures passes { M.AreJoined result.me.0 [] seats.items }
{
    let Some(first) = seats.pop() else {
        unreachable!()
    };
    // by all of its fields, so that no other one can stand beside the words
    let BoardSeat {
        seat: mut whole,
        done: _,
    } = first;
    while let Some(next) = seats.pop() {
        let BoardSeat { seat, done: _ } = next;
        table.join_seat::<M>(&mut whole, seat);
    }
    whole
}
