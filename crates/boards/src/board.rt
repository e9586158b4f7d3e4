//! A scan board: how it is made, how its tiles are claimed, and how it is closed.

ghost use Rattle.std.specs.Prelude.{◌≡◌, ◌≤◌, IfOk, length};
ghost use Rattle.std.specs.List.{All};
ghost use Rattle.cvl_base.specs.Limits.{most_workers};
ghost use Rattle.boards.specs.Answers.{IsEnd, IsNew};
ghost use Rattle.boards.specs.Boards.{IsSeatOf, on_hand};
ghost use Rattle.least_boards.specs.Claims.{IsClaim, after_answer};

use crate::rule::{ClaimStep, Counted, OneMore, PassOf, ScanRule};
use crate::seat::ScanSeat;
use crate::tiles::Tiles;
use atomic_table::Table;
use cvl_base::{Memory, Monoid, NoResources};
use least_boards::{Claim, deal_seats, join_seats};
use status_word::{code_law, rule_law};
use std::alloc::Allocator;
use std::marker::Model;

/// Shared by the workers of a single-pass scan: a word for each tile, which says what has been published of the tile so far, and
/// a word that counts the claims. Each call takes one atomic step on one word, or a bounded number of them, and waits for nobody.
/// Its model is which board it is, the sums of its tiles, and for how many workers it was made.
///
/// Source: Merrill and Garland, Single-pass Parallel Prefix Scan with Decoupled Look-back, 2016.
#[derive(Drop)]
pub struct ScanBoard<T: Tiles, A: Allocator> {
    pub(crate) table: Table<(), PassOf<T>, Counted<T>, ScanRule<T>, A>,
    pub(crate) counted: Counted<T>,
}

impl<T: Tiles, A: Allocator> Model for ScanBoard<T, A> {
    ghost use Rattle.std.specs.Prelude.{◌≡◌, ◌+◌, length};
    ghost use Rattle.boards.specs.Boards.{Board};

    ghost Value = { Board T.M.Item };

    ghost view = { λ b. record {
      id = b.table.shared.table_id;
      sums = T.sums b.counted.tiles;
      workers = b.counted.workers;
    } };

    ghost invariant = { λ b.
        (b.table.shared.key ≡ b.counted)
        × (b.table.shared.table_id.words ≡ length (T.sums b.counted.tiles) + 1)
        × (b.table.shared.table_id.slots ≡ 0) };
}

/// The answer of a closed board.
#[derive(Clone, Copy, Debug)]
pub struct Ended {
    /// How many tiles were given.
    pub given: u32,
}

impl<T: Tiles, A: Memory> ScanBoard<T, A> {
    /// A board over these tiles, none of which is given yet, and a seat for each of the 1 to 64 workers.
    pub fn new(
        alloc: A,
        tiles: T,
        workers: u32,
    ) -> Result<(ScanBoard<T, A>, Vec<ScanSeat<T::M>, A>), NoResources>
        requires some { 1 ≤ workers }
        requires few { workers ≤ most_workers }
        ensures { IfOk result (λ b. IsNew (T.sums tiles) workers b.0 b.1.items) }
    {
        let count = tiles.count();
        let counted = Counted {
            tiles,
            count,
            workers,
        };
        rule_law::<<T::M as Monoid>::Item>();
        code_law::<T::M>();
        let words = Vec::from_elem(alloc, 0, count as usize + 1)?;
        let (table, whole) = Table::of_words(alloc, words.as_slice(), &counted)?;
        let seats = deal_seats::<OneMore, _, _, _, _>(alloc, &table.shared, workers, whole)?;
        let board = ScanBoard { table, counted };
        Ok((board, seats))
    }
}

impl<T: Tiles, A: Allocator> ScanBoard<T, A> {
    /// Claims a tile for the worker of this seat: one that no other seat gets, or the answer that none is left; from then on it
    /// takes no step and gets the same answer. One step on the claim word, which takes no memory.
    pub fn claim(&self, seat: &mut ScanSeat<T::M>) -> Claim
        requires { IsSeatOf self.now seat.old }
        ensures same { IsSeatOf self.now seat.new }
        ensures claim { IsClaim (λ p. p.hand) (length self.now.sums) result seat.old seat.new }
        ensures seat { seat.new ≡ after_answer on_hand seat.old result }
    {
        if seat.done {
            return Claim::Done;
        }
        rule_law::<<T::M as Monoid>::Item>();
        let count = self.counted.count;
        let found = self
            .table
            .shared
            .fetch_add::<ClaimStep>(&mut seat.seat, count as usize, 1);
        let answer = Claim::after(found, count);
        seat.done = answer.is_done();
        answer
    }

    /// Closes the board with all of its seats, and returns how many tiles were given. It takes no memory.
    pub fn close(self, seats: Vec<ScanSeat<T::M>, A>) -> Ended
        requires seats { All (IsSeatOf self) seats.items }
        requires every { length seats.items ≡ self.workers }
        ensures { IsEnd (length self.sums) seats.items result.given }
    {
        rule_law::<<T::M as Monoid>::Item>();
        let whole = join_seats::<OneMore, _, _, _, _>(&self.table.shared, seats);
        let ScanBoard { table, counted } = self;
        let closed = table.close_with(whole);
        let claims = closed.word(counted.count as usize);
        closed.free();
        Ended {
            given: claims.min(u64::from(counted.count)) as u32,
        }
    }
}
