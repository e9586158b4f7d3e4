//! The look-back: what the tiles before a tile join to, from what has been published of them.

ghost use Rattle.std.specs.Prelude.{◌≡◌, ◌<◌, length};
ghost use Rattle.boards.specs.Answers.{IsLookBack};
ghost use Rattle.boards.specs.Boards.{IsSeatOf};
ghost use Rattle.boards.specs.Walks.{IsOneLook, IsTrueOfTile, rank_of};
ghost use Rattle.cvl_base.specs.TileSums.{SumsLaws, before_tile};

use crate::board::ScanBoard;
use crate::seat::ScanSeat;
use crate::tiles::Tiles;
use cvl_base::tile_sums::know_sums;
use cvl_base::{Monoid, Seg};
use status_word::Status;
use std::alloc::Allocator;

/// The answer of a look-back.
#[derive(Clone, Copy, Debug)]
pub struct Back<I> {
    /// What the elements of the tiles before join to, and whether a segment starts among them.
    pub before: (bool, I),
    /// How many tiles it looked at.
    pub looks: u32,
}

/// What one look of a look-back gave.
enum Found<I> {
    /// The tile's own sum.
    Sum(bool, I),
    /// The sum of the tile and of all tiles before it.
    Prefix(bool, I),
}

impl<T: Tiles, A: Allocator> ScanBoard<T, A> {
    /// What the tiles before tile `t` join to. It looks at tile t-1, t-2 and so on, once at each, until it finds a prefix or the
    /// first tile is done; if nothing is published of a tile yet, it adds it up itself, and publishes its sum. So it looks at
    /// no tile twice, waits for nobody, and takes no memory.
    ///
    /// Source: Merrill and Garland's decoupled look-back.
    pub fn look_back(&self, seat: &mut ScanSeat<T::M>, t: u32) -> Back<<T::M as Monoid>::Item>
        requires seat { IsSeatOf self.now seat.old }
        requires tile { t < length self.now.sums }
        ensures same { IsSeatOf self.now seat.new }
        ensures done { seat.new.is_done ≡ seat.old.is_done }
        ensures before { result.before
            ≡ before_tile T.M.join T.M.unit self.now.sums t }
        ensures looks { IsLookBack t result.looks seat.old.pass seat.new.pass }
    {
        self.know_sums();
        let mut after = Seg::<T::M>::unit();
        let mut at = t;
        while at > 0 {
            at -= 1;
            match self.find(seat, at) {
                Found::Sum(starts, value) => after = Seg::<T::M>::join((starts, value), after),
                Found::Prefix(starts, value) => {
                    return Back {
                        before: Seg::<T::M>::join((starts, value), after),
                        looks: t - at,
                    };
                }
            }
        }
        Back {
            before: after,
            looks: t,
        }
    }

    /// One look at tile `at`; if nothing is published of the tile yet, it is added up and its sum is published.
    fn find(&self, seat: &mut ScanSeat<T::M>, at: u32) -> Found<<T::M as Monoid>::Item>
        requires seat { IsSeatOf self.now seat.old }
        requires tile { at < length self.now.sums }
        ensures same { IsSeatOf self.now seat.new }
        ensures done { seat.new.is_done ≡ seat.old.is_done }
        ensures found { IsTrueOfTile T.M.join T.M.unit self.now.sums at result }
        ensures step { IsOneLook at (rank_of result) seat.old.pass seat.new.pass }
    {
        match self.look(seat, at) {
            Status::Silent => {
                let sum = self.counted.tiles.sum(at);
                self.tell_known_sum(seat, at, sum);
                Found::Sum(sum.0, sum.1)
            }
            Status::Sum(starts, value) => Found::Sum(starts, value),
            Status::Prefix(starts, value) => Found::Prefix(starts, value),
        }
    }

    /// How the sums of the tiles fit together, for the proof of a look-back: the call does nothing.
    fn know_sums(&self)
        ensures { SumsLaws T.M.is_item T.M.join T.M.unit self.now.sums }
    {
        let _counted = &self.counted;
        know_sums::<T::M>();
    }
}
