//! What has been published of a tile: a look at its word, and how its sum and its prefix are published.

ghost use Rattle.std.specs.Prelude.{◌≡◌, ◌<◌, ◌≤◌, length};
ghost use Rattle.boards.specs.Boards.{IsSeatOf, with_pass};
ghost use Rattle.status_word.specs.Passes.{known_at, looked, told_state};
ghost use Rattle.cvl_base.specs.TileSums.{before_tile, own_sum};
ghost use Rattle.status_word.specs.Codings.{told_of};
ghost use Rattle.status_word.specs.Words.{state_of};

use crate::board::ScanBoard;
use crate::rule::{LookStep, PrefixStep, SumStep};
use crate::seat::ScanSeat;
use crate::tiles::Tiles;
use cvl_base::tile_sums::know_sums;
use cvl_base::{Monoid, Seg};
use status_word::{Status, code_law, pack_status, read_status, rule_law};
use std::alloc::Allocator;

impl<T: Tiles, A: Allocator> ScanBoard<T, A> {
    /// What has been published of tile `t`: a status that is lawful there, never lower than what this seat published or saw of
    /// it. One load, which takes no memory.
    pub fn look(&self, seat: &mut ScanSeat<T::M>, t: u32) -> Status<<T::M as Monoid>::Item>
        requires seat { IsSeatOf self.now seat.old }
        requires tile { t < length self.now.sums }
        ensures same { IsSeatOf self.now seat.new }
        ensures lawful { result
            ≡ told_of T.M.join T.M.unit self.now.sums t (state_of result) }
        ensures risen { known_at t seat.old.pass ≤ state_of result }
        ensures seen { seat.new ≡ with_pass seat.old (looked seat.old.pass t (state_of result)) }
    {
        rule_law::<<T::M as Monoid>::Item>();
        code_law::<T::M>();
        let word = self
            .table
            .shared
            .load::<LookStep<T::M>>(&mut seat.seat, t as usize);
        read_status::<T::M>(word)
    }

    /// Publishes the sum of tile `t`, after adding it up. One fetch_max, which takes no memory.
    pub fn tell_sum(&self, seat: &mut ScanSeat<T::M>, t: u32)
        requires seat { IsSeatOf self.now seat.old }
        requires tile { t < length self.now.sums }
        ensures same { IsSeatOf self.now seat.new }
        ensures told { seat.new ≡ with_pass seat.old (told_state seat.old.pass t 1) }
    {
        self.tell_known_sum(seat, t, self.counted.tiles.sum(t));
    }

    /// Publishes the prefix of tile `t`, after adding it up; `before` is what the tiles before it join to, as `look_back` gives
    /// it. One fetch_max, which takes no memory.
    pub fn tell_prefix(
        &self,
        seat: &mut ScanSeat<T::M>,
        t: u32,
        before: (bool, <T::M as Monoid>::Item),
    )
        requires seat { IsSeatOf self.now seat.old }
        requires tile { t < length self.now.sums }
        requires before { before
            ≡ before_tile T.M.join T.M.unit self.now.sums t }
        ensures same { IsSeatOf self.now seat.new }
        ensures told { seat.new ≡ with_pass seat.old (told_state seat.old.pass t 2) }
    {
        self.tell_known_prefix(seat, t, before, self.counted.tiles.sum(t));
    }

    /// Publishes the sum of tile `t`, for a caller that has added it up. One fetch_max, which takes no memory.
    pub fn tell_known_sum(
        &self,
        seat: &mut ScanSeat<T::M>,
        t: u32,
        sum: (bool, <T::M as Monoid>::Item),
    )
        requires seat { IsSeatOf self.now seat.old }
        requires tile { t < length self.now.sums }
        requires sum { sum
            ≡ own_sum T.M.unit self.now.sums t }
        ensures same { IsSeatOf self.now seat.new }
        ensures told { seat.new ≡ with_pass seat.old (told_state seat.old.pass t 1) }
    {
        rule_law::<<T::M as Monoid>::Item>();
        code_law::<T::M>();
        let shared = &self.table.shared;
        let word = pack_status::<T::M>(Status::Sum(sum.0, sum.1));
        shared.fetch_max::<SumStep>(&mut seat.seat, t as usize, word);
    }

    /// Publishes the prefix of tile `t`, for a caller that has added the tile up. One fetch_max, which takes no memory.
    pub fn tell_known_prefix(
        &self,
        seat: &mut ScanSeat<T::M>,
        t: u32,
        before: (bool, <T::M as Monoid>::Item),
        sum: (bool, <T::M as Monoid>::Item),
    )
        requires seat { IsSeatOf self.now seat.old }
        requires tile { t < length self.now.sums }
        requires before { before
            ≡ before_tile T.M.join T.M.unit self.now.sums t }
        requires sum { sum
            ≡ own_sum T.M.unit self.now.sums t }
        ensures same { IsSeatOf self.now seat.new }
        ensures told { seat.new ≡ with_pass seat.old (told_state seat.old.pass t 2) }
    {
        rule_law::<<T::M as Monoid>::Item>();
        code_law::<T::M>();
        know_sums::<T::M>();
        let shared = &self.table.shared;
        let prefix = Seg::<T::M>::join(before, sum);
        let word = pack_status::<T::M>(Status::Prefix(prefix.0, prefix.1));
        shared.fetch_max::<PrefixStep>(&mut seat.seat, t as usize, word);
    }
}
