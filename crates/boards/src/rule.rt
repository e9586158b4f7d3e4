//! The rule of a scan board's table, and what each of its steps shows. Except for the tiles, these types are only for proofs.

ghost use Rattle.std.specs.Prelude.{◌≡◌, ◌≤◌, length};
ghost use Rattle.std.specs.List.{AllPass};
ghost use Rattle.cvl_base.specs.Limits.{most_elements, most_workers};
ghost use Rattle.cvl_base.specs.SegmentMonoid.{is_seg_item};
ghost use Rattle.status_word.specs.Codings.{coding};
ghost use Rattle.boards.specs.Boards.{on_hand};
ghost use Rattle.boards.specs.Joined.{AreJoined};
ghost use Rattle.boards.specs.Rules.{IsRuled, LookGives, TellGives};
ghost use Rattle.least_boards.specs.ClaimSteps.{ClaimGives};
ghost use Rattle.status_word.specs.Passes.{first_pass, passes_joined, spent_pass, split_left, split_right};

use crate::tiles::Tiles;
use atomic_table::{Join, Play, Split, TableRule};
use cvl_base::{Monoid, Packed};
use least_boards::Gather;
use status_word::Pass;
use std::marker::PhantomData;

/// The tiles of a board, counted, and for how many workers it is.
#[derive(Drop)]
pub(crate) struct Counted<T: Tiles> {
    pub(crate) tiles: T,
    pub(crate) count: u32,
    pub(crate) workers: u32,
    ghost counts: { count ≡ length (T.sums tiles) },
    ghost few: { length (T.sums tiles) ≤ most_elements },
    ghost items: { AllPass (is_seg_item T.M.is_item) (T.sums tiles) },
    ghost some_workers: { 1 ≤ workers },
    ghost few_workers: { workers ≤ most_workers },
}

/// What a seat knows of the tiles.
pub(crate) type PassOf<T> = Pass<<<T as Tiles>::M as Monoid>::Item>;

pub(crate) struct ScanRule<T>(PhantomData<T>);

impl<T: Tiles> TableRule<(), PassOf<T>, Counted<T>> for ScanRule<T> {
    ghost holds = { λ key.
        IsRuled (coding T.M.Packed) (T.sums key.tiles) key.workers };

    ghost first = { λ key. first_pass (T.sums key.tiles) key.workers };
}

/// A claim.
pub(crate) struct ClaimStep;

impl<I> Play<(), Pass<I>> for ClaimStep {
    ghost then = { ClaimGives (λ p. p.hand) on_hand (λ p. length p.sums) };
}

/// A look at a tile's word.
pub(crate) struct LookStep<M>(PhantomData<M>);

impl<M: Packed> Play<(), Pass<M::Item>> for LookStep<M> {
    ghost then = { LookGives (coding M.Packed) };
}

/// A tile's sum is published.
pub(crate) struct SumStep;

impl<I> Play<(), Pass<I>> for SumStep {
    ghost then = { TellGives 1 };
}

/// A tile's prefix is published.
pub(crate) struct PrefixStep;

impl<I> Play<(), Pass<I>> for PrefixStep {
    ghost then = { TellGives 2 };
}

/// One more seat, and all seats in one.
pub(crate) struct OneMore;

impl<I> Split<Pass<I>> for OneMore {
    ghost left = { split_left };

    ghost right = { split_right };
}

impl<I> Join<Pass<I>> for OneMore {
    ghost both = { passes_joined };

    ghost spent = { spent_pass };
}

impl<I> Gather<Pass<I>> for OneMore {
    ghost AreJoined = { AreJoined };
}
