//! What a pack keeps, written tile by tile, by threads that each have neighbouring tiles.

ghost use Rattle.std.specs.Prelude.{◌≡◌, ◌*◌, ◌<◌, ◌≤◌, ◌+◌, [], IfOk, length, min, take, vec_len};
ghost use Rattle.cvl_base.specs.Limits.{longest_tile, most_elements};
ghost use Rattle.cvl_base.specs.Packs.{count_of};
ghost use Rattle.fresh.specs.Parts.{part};
ghost use Rattle.fresh.specs.Places.{stretch};
ghost use Rattle.pack_dist.specs.Kept.{count_before, counts_before, kept_of};
ghost use Rattle.tile_plan.specs.Ranges.{tile_count};

use crate::kept_blocks::push_kept;
use cvl_base::{Memory, NoResources, true_count};
use fresh::{Run, Share, write_in_parts};
use sharing::{ThreadCount, share_of_first};
use std::thread::Threads;

/// The elements of a pack and their flags in tiles, with the number of true flags before each.
#[derive(Drop)]
pub(crate) struct Kept<'a, T: Copy> {
    pub(crate) values: &'a [T],
    pub(crate) flags: &'a [bool],
    pub(crate) tile: usize,
    pub(crate) before: &'a [i32],
    ghost few: { length flags.now ≤ most_elements },
    ghost as_long: { length values.now ≡ length flags.now },
    ghost some: { 1 ≤ tile },
    ghost short: { tile ≤ longest_tile },
    ghost known: { before.now ≡ counts_before flags.now tile },
}

impl<'a, T: Copy> Kept<'a, T> {
    /// The number of tiles.
    fn tiles(&self) -> usize
        ensures { result ≡ tile_count (length self.now.flags.now) self.now.tile }
    {
        self.before.len()
    }

    /// The first place of tile `t`, or the number of elements if `t` is the number of tiles.
    fn start(&self, t: usize) -> usize
        requires { t ≤ tile_count (length self.now.flags.now) self.now.tile }
        ensures { result ≡ min (t * self.now.tile) (length self.now.flags.now) }
    {
        (t * self.tile).min(self.flags.len())
    }

    /// How many flags are true before tile `t`.
    #[tactic(auto, using(crate::proofs::Tiles::as_many, crate::proofs::Tiles::count_at))]
    fn count_before(&self, t: usize) -> usize
        requires { t < tile_count (length self.now.flags.now) self.now.tile }
        ensures { result ≡ count_before self.now.flags.now self.now.tile t }
    {
        self.before[t] as usize
    }

    /// How many flags are true, at least one: those before the last tile, and its own.
    fn count(&self) -> usize
        requires { 0 < length self.now.flags.now }
        ensures { result ≡ count_of self.now.flags.now }
    {
        let last = self.tiles() - 1;
        let (_, flags) = self.flags.split_at(self.start(last));
        self.count_before(last) + true_count(flags)
    }
}

/// What a pack keeps of the tiles from one up to another, without that, in a part for each thread.
#[derive(Drop)]
struct KeptTiles<'a, T: Copy> {
    kept: &'a Kept<'a, T>,
    from: usize,
    to: usize,
    threads: ThreadCount,
    ghost in_order: { from ≤ to },
    ghost within: { to ≤ tile_count (length kept.now.flags.now) kept.now.tile },
}

/// What a pack keeps of at least one element, written by at most `threads` threads. Each has about as many tiles, and so reads as
/// many elements, as another.
pub(crate) fn write_kept_tiles<T: Copy + Send + Sync, R: Threads + Sync, A: Memory>(
    rt: &R,
    alloc: A,
    threads: ThreadCount,
    kept: &Kept<T>,
) -> Result<Vec<T, A>, NoResources>
    requires some { 0 < length kept.now.flags.now }
    ensures values { IfOk result (λ v. v.items ≡ kept_of kept.now.values.now kept.now.flags.now) }
    ensures no_longer { IfOk result (λ v. vec_len v ≤ length kept.now.values.now) }
{
    let count = kept.count();
    let tiles = kept.tiles();
    let share = KeptTiles {
        kept,
        from: 0,
        to: tiles,
        threads: threads.at_most(tiles),
    };
    let (packed, _) = write_in_parts(rt, alloc, threads, share, count)?;
    Ok(packed)
}

impl<'a, T: Copy> Share<T> for KeptTiles<'a, T> {
    ghost use Rattle.std.specs.Prelude.{◌≡◌, ◌+◌, ◌-◌, length, None};
    ghost use Rattle.cvl_base.specs.Packs.{count_of};
    ghost use Rattle.fresh.specs.Parts.{length_part, part};
    ghost use Rattle.pack_dist.specs.Kept.{ArePlacesOf, count_before, kept_of};
    ghost use Rattle.sharing.specs.Shares.{first_of_two, share_of_first};

    ghost IsOf = { λ s first room. ArePlacesOf s.kept.now.values.now s.kept.now.flags.now s.kept.now.tile s.from s.to
        first room };

    ghost items = { λ s first room. part (kept_of s.kept.now.values.now s.kept.now.flags.now) first room };

    ghost found = { λ s first room. None };

    ghost parts = { λ s. s.threads };

    ghost IsSplit = { λ s first room places. first + places
        ≡ count_before s.kept.now.flags.now s.kept.now.tile
        (s.from + share_of_first (first_of_two s.threads) s.threads (s.to - s.from)) };

    ghost long = { λ s first room is. length_part (kept_of s.kept.now.values.now s.kept.now.flags.now) first room is.within };

    fn count(&self) -> usize {
        self.threads.get()
    }

    fn split(self, first: usize, room: usize) -> (KeptTiles<'a, T>, usize, KeptTiles<'a, T>) {
        let (kept, from, to) = (self.kept, self.from, self.to);
        let (fewer, others) = self.threads.split();
        let middle = from + share_of_first(fewer.get(), self.threads.get(), to - from);
        let places = if middle < to {
            kept.count_before(middle) - first
        } else {
            room
        };
        let low = KeptTiles {
            kept,
            from,
            to: middle,
            threads: fewer,
        };
        let high = KeptTiles {
            kept,
            from: middle,
            to,
            threads: others,
        };
        (low, places, high)
    }

    fn write(self, run: Run<T>) -> (Run<T>, Option<usize>)
        requires one { self.threads < 2 }
        requires empty { run.items ≡ [] }
        requires places { ArePlacesOf self.kept.now.values.now self.kept.now.flags.now self.kept.now.tile self.from self.to
            run.first run.room }
        ensures run { result.0 ≡ stretch run.block run.first
            (part (kept_of self.entry.kept.now.values.now self.entry.kept.now.flags.now) run.first run.room) 0 }
        ensures found { result.1 ≡ None }
    {
        let kept = self.kept;
        let (from, to) = (kept.start(self.from), kept.start(self.to));
        let (values, _) = kept.values.split_at(to);
        let (flags, _) = kept.flags.split_at(to);
        let (_, values) = values.split_at(from);
        let (_, flags) = flags.split_at(from);
        (push_kept(run, values, flags), None)
    }
}
