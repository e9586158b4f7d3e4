//! A least board: how it is made, how its tiles are claimed, and how it is closed.

ghost use Rattle.std.specs.Prelude.{◌≡◌, ◌≤◌, IfOk, length};
ghost use Rattle.std.specs.List.{All};
ghost use Rattle.cvl_base.specs.Limits.{most_workers};
ghost use Rattle.least_boards.specs.Claims.{IsClaim, after_answer};
ghost use Rattle.least_boards.specs.LeastBoards.{IsLeastEnd, IsLeastSeatOf, IsNewLeast};
ghost use Rattle.least_boards.specs.LeastPasses.{on_least_hand};
ghost use Rattle.tile_plan.specs.Ranges.{tile_count};

use crate::claim::Claim;
use crate::hands::{deal_seats, join_seats};
use crate::least_pass::LeastPass;
use crate::least_rule::{LeastClaim, LeastRule, OneMoreLeast, Slotted};
use crate::leasts::Leasts;
use crate::seat::LeastSeat;
use crate::targets::Targets;
use atomic_table::Table;
use cvl_base::{Memory, NoResources};
use status_word::hand_law;
use std::alloc::Allocator;
use std::marker::Model;
use tile_plan::Plan;

/// Shared by workers that look for the least place of each slot: a word for each slot, which holds the least place lowered there
/// so far, and a word that counts the claims of tiles. Each call takes one atomic step on one word and waits for nobody. Its
/// model is which board it is, the slot of each place, how many slots and tiles there are, and for how many workers it was made.
///
/// Source: the priority write of a parallel machine with concurrent writes; the claim counter is that of Merrill and
/// Garland, Single-pass Parallel Prefix Scan with Decoupled Look-back, 2016.
#[derive(Drop)]
pub struct LeastBoard<T: Targets, A: Allocator> {
    pub(crate) table: Table<(), LeastPass, Slotted<T>, LeastRule<T>, A>,
    pub(crate) slotted: Slotted<T>,
}

impl<T: Targets, A: Allocator> Model for LeastBoard<T, A> {
    ghost use Rattle.std.specs.Prelude.{◌≡◌, ◌+◌};
    ghost use Rattle.least_boards.specs.LeastBoards.{LeastView};

    ghost Value = { LeastView };

    ghost view = { λ b. record {
      id = b.table.shared.table_id;
      targets = T.targets b.slotted.targets;
      slots = b.slotted.slots;
      tiles = b.slotted.tiles;
      workers = b.slotted.workers;
    } };

    ghost invariant = { λ b.
        (b.table.shared.key ≡ b.slotted)
        × (b.table.shared.table_id.words ≡ b.slotted.slots + 1)
        × (b.table.shared.table_id.slots ≡ 0) };
}

impl<T: Targets, A: Memory> LeastBoard<T, A> {
    /// A board over these targets, with a seat for each of the 1 to 64 workers; the plan has as many elements as there are
    /// places. No tile is given yet, and no place is lowered.
    pub fn new(
        alloc: A,
        targets: T,
        plan: Plan,
        workers: u32,
    ) -> Result<(LeastBoard<T, A>, Vec<LeastSeat, A>), NoResources>
        requires plan { plan.len ≡ length (T.targets targets) }
        requires some { 1 ≤ workers }
        requires few { workers ≤ most_workers }
        ensures { IfOk result (λ b. IsNewLeast (T.targets targets) (T.slot_count targets)
            (tile_count plan.len plan.tile) workers b.0 b.1.items) }
    {
        // its contract bounds the number of places
        let _places = targets.places();
        let slots = targets.slots();
        let tiles = plan.count();
        hand_law::<LeastPass>();
        let mut words = Vec::from_elem(alloc, u64::MAX, slots as usize + 1)?;
        words[slots as usize] = 0;
        let slotted = Slotted {
            targets,
            slots,
            tiles,
            workers,
        };
        let (table, whole) = Table::of_words(alloc, words.as_slice(), &slotted)?;
        let seats = deal_seats::<OneMoreLeast, _, _, _, _>(alloc, &table.shared, workers, whole)?;
        let board = LeastBoard { table, slotted };
        Ok((board, seats))
    }
}

impl<T: Targets, A: Allocator> LeastBoard<T, A> {
    /// Claims a tile for the worker of this seat: one that no other seat gets, or the answer that none is left; from then on it
    /// takes no step and gets the same answer. One step on the claim word, which takes no memory.
    pub fn claim(&self, seat: &mut LeastSeat) -> Claim
        requires { IsLeastSeatOf self.now seat.old }
        ensures same { IsLeastSeatOf self.now seat.new }
        ensures claim { IsClaim (λ p. p.hand) self.now.tiles result seat.old seat.new }
        ensures seat { seat.new ≡ after_answer on_least_hand seat.old result }
    {
        if seat.done {
            return Claim::Done;
        }
        hand_law::<LeastPass>();
        let found = self
            .table
            .shared
            .fetch_add::<LeastClaim>(&mut seat.seat, self.slotted.slots as usize, 1);
        let answer = Claim::after(found, self.slotted.tiles);
        seat.done = answer.is_done();
        answer
    }

    /// Closes the board with all of its seats, and returns the least place of each slot that was lowered there. It takes no
    /// memory.
    pub fn close(self, seats: Vec<LeastSeat, A>) -> Leasts<A>
        requires seats { All (IsLeastSeatOf self) seats.items }
        requires every { length seats.items ≡ self.workers }
        ensures { IsLeastEnd self seats.items result }
    {
        hand_law::<LeastPass>();
        let whole = join_seats::<OneMoreLeast, _, _, _, _>(&self.table.shared, seats);
        let LeastBoard { table, slotted } = self;
        Leasts::of(table.close_with(whole), slotted.slots)
    }
}
