//! The work of a crew.

ghost use Rattle.std.specs.Prelude.{◌≡◌, ℕ, ◌<◌, ◌≤◌, Bool, List, IfOk, OnOk};
ghost use Rattle.boards.specs.Claims.{Claims};
ghost use Rattle.boards.specs.Passes.{times};

use crate::gate::Gate;
use boards::Claim;
use cvl_base::{Memory, NoResources};

/// A work that is cut into tiles, which its board gives to its seats.
///
/// Its meaning is the number of tiles, the items of each tile, which seats are seats of its board, and for a seat as it is now
/// the tiles that were given to it, the newest first, and whether a claim has answered that none is left. It also names the fact
/// of a tile: what a worker does at a tile for the others besides its items, such as what it publishes of the tile.
pub trait Work: Sync {
    /// A worker's place at the board.
    type Seat: Send + Drop;

    /// What a tile is made into.
    type Item: Send + Drop;

    ghost count: { Self → ℕ };

    ghost items: { Self → ℕ → List Self.Item };

    ghost IsSeat: { Self → Self.Seat → Type 0 };

    ghost given: { Self.Seat → List ℕ };

    ghost is_done: { Self.Seat → Bool };

    ghost HasFact: { Self → Self.Seat → ℕ → Type 0 };

    /// Asks the board for a tile that the seat doesn't have yet. The answer is the tile, or that none is left.
    fn claim(&self, seat: &mut Self::Seat) -> Claim
        requires { IsSeat self.now seat.old }
        ensures claims { Claims (count self.now) result
            (given seat.old) (given seat.new) (is_done seat.old) (is_done seat.new) }
        ensures stays { IsSeat self.now seat.new }
        ensures facts { (t : ℕ) → HasFact self.now seat.old t → HasFact self.now seat.new t };

    /// The items of tile `t`, which was given to the seat, or `NoResources` if there is no memory for them. `worker` passes the
    /// gate's points between `Claimed` and `Finished` that the work has. The seat is given no tile. With the items it has the
    /// fact of the tile, and it keeps those of other tiles in any case.
    fn tile<A: Memory, G: Gate>(
        &self,
        alloc: A,
        seat: &mut Self::Seat,
        worker: u32,
        t: u32,
        gate: &G,
    ) -> Result<Vec<Self::Item, A>, NoResources>
        requires of_board { IsSeat self.now seat.old }
        requires of_work { t < count self.now }
        requires of_seat { 1 ≤ times t (given seat.old) }
        ensures items { IfOk result (λ made. made.items ≡ items self.now t) }
        ensures given { given seat.new ≡ given seat.old }
        ensures done { is_done seat.new ≡ is_done seat.old }
        ensures stays { IsSeat self.now seat.new }
        ensures fact { OnOk result (HasFact self.now seat.new t) }
        ensures facts { (other : ℕ) → HasFact self.now seat.old other → HasFact self.now seat.new other };
}
