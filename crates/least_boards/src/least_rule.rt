//! The rule of a least board's table, and what each of its steps shows. Except for the targets, these types are only for proofs.

ghost use Rattle.std.specs.Prelude.{◌≡◌, ◌≤◌, length};
ghost use Rattle.cvl_base.specs.Limits.{most_elements, most_workers};
ghost use Rattle.least_boards.specs.LeastPasses.{first_least_pass, least_passes_joined, on_least_hand, spent_least_pass};
ghost use Rattle.least_boards.specs.LeastPasses.{split_least_left, split_least_right};
ghost use Rattle.least_boards.specs.LeastRules.{IsLeastRuled, LeastGives, LowerGives};
ghost use Rattle.least_boards.specs.ClaimSteps.{ClaimGives};
ghost use Rattle.least_boards.specs.Joined.{AreLeastsJoined};

use crate::hands::Gather;
use crate::least_pass::LeastPass;
use crate::targets::Targets;
use atomic_table::{Join, Play, Split, TableRule};
use std::marker::PhantomData;

/// The targets of a board, how many slots and tiles there are, and for how many workers it is.
#[derive(Drop)]
pub(crate) struct Slotted<T: Targets> {
    pub(crate) targets: T,
    pub(crate) slots: u32,
    pub(crate) tiles: u32,
    pub(crate) workers: u32,
    ghost of_slots: { slots ≡ T.slot_count targets },
    ghost few_places: { length (T.targets targets) ≤ most_elements },
    ghost few_slots: { slots ≤ most_elements },
    ghost few_tiles: { tiles ≤ most_elements },
    ghost some_workers: { 1 ≤ workers },
    ghost few_workers: { workers ≤ most_workers },
}

pub(crate) struct LeastRule<T>(PhantomData<T>);

impl<T: Targets> TableRule<(), LeastPass, Slotted<T>> for LeastRule<T> {
    ghost holds = { λ key. IsLeastRuled (T.targets key.targets) key.slots key.tiles key.workers };

    ghost first = { λ key. first_least_pass (T.targets key.targets) key.tiles key.workers };
}

/// A claim.
pub(crate) struct LeastClaim;

impl Play<(), LeastPass> for LeastClaim {
    ghost then = { ClaimGives (λ p. p.hand) on_least_hand (λ p. p.tiles) };
}

/// A place is lowered in a slot.
pub(crate) struct LowerStep;

impl Play<(), LeastPass> for LowerStep {
    ghost then = { LowerGives };
}

/// A slot's word is read.
pub(crate) struct LeastStep;

impl Play<(), LeastPass> for LeastStep {
    ghost then = { LeastGives };
}

/// One more seat, and all seats in one.
pub(crate) struct OneMoreLeast;

impl Split<LeastPass> for OneMoreLeast {
    ghost left = { split_least_left };

    ghost right = { split_least_right };
}

impl Join<LeastPass> for OneMoreLeast {
    ghost both = { least_passes_joined };

    ghost spent = { spent_least_pass };
}

impl Gather<LeastPass> for OneMoreLeast {
    ghost AreJoined = { AreLeastsJoined };
}
