//! Laws of the boards' rules, each a function that takes and gives nothing and whose contract says what the steps of a board
//! keep.

ghost use Rattle.std.specs.Prelude.{◌≡◌, Bool, List, [], ◌∷◌};
ghost use Rattle.std.specs.List.{AllPass};
ghost use Rattle.cvl_base.specs.SegmentMonoid.{is_seg_item};
ghost use Rattle.status_word.specs.Codings.{CodeLaws, coding};
ghost use Rattle.status_word.specs.declared.pass.Hand.{Hand};
ghost use Rattle.status_word.specs.declared.pass.Pass.{Pass};
ghost use Rattle.status_word.specs.Hands.{once_claimed};
ghost use Rattle.status_word.specs.Passes.{first_pass, passes_joined, known_at, new_pass, split_left, split_right, told_at};
ghost use Rattle.status_word.specs.RuleSteps.{ClaimDeals, DoneDeals, FewClaims, FirstDeals, JoinDeals, SameDeals, SplitDeals};
ghost use Rattle.status_word.specs.RuleSteps.{WholeDeals};
ghost use Rattle.status_word.specs.RuleSteps.{ClaimKeeps, DoneKeeps, FewClaimed, FirstKeeps, JoinAdds, JoinKeeps, LookKeeps};
ghost use Rattle.status_word.specs.RuleSteps.{SplitKeeps, TellKeeps, WholeKnows};
ghost use Rattle.status_word.specs.WorkedPasses.{other_pass, worked_pass};
ghost use Rattle.status_word.specs.WorkedWorlds.{worked_sums};

use crate::word_laws::know_coding;
use cvl_base::Packed;

/// The rule of the hands, which every board keeps whatever its words tell, for passes `P` that have a hand: each kind of
/// step keeps it; a tile that a claim gives was not given to the pass before; the claim word is at most the number of
/// tiles and workers; and the pass that stands for all workers knows all that was given.
///
/// Source: the claim counter of Merrill and Garland's single-pass scan.
pub fn hand_law<P>()
    ensures first { (hand : P → Hand) → FirstDeals hand }
    ensures claim { (hand : P → Hand) → ClaimDeals hand }
    ensures done { (hand : P → Hand) → DoneDeals hand }
    ensures same { (hand : P → Hand) → SameDeals hand }
    ensures split { (hand : P → Hand) → SplitDeals hand }
    ensures join { (hand : P → Hand) → JoinDeals hand }
    ensures few { (hand : P → Hand) → FewClaims hand }
    ensures whole { (hand : P → Hand) → WholeDeals hand }
{}

/// The rule of a scan board, over the claim word, the words of the tiles and the passes of the workers: each kind of step
/// keeps it, a look finds no less than its pass knows, and the pass that stands for all workers knows all that was given
/// and saw nothing that was not told.
///
/// Source: Merrill and Garland's decoupled look-back.
pub fn rule_law<I>()
    ensures first { FirstKeeps I }
    ensures claim { ClaimKeeps I }
    ensures done { DoneKeeps I }
    ensures look { LookKeeps I }
    ensures tell { TellKeeps I }
    ensures split { SplitKeeps I }
    ensures join { JoinKeeps I }
    ensures few { FewClaimed I }
    ensures whole { WholeKnows I }
    ensures added { (p other : Pass I) → JoinAdds p other }
{}

/// The words of the tiles, for each monoid with words: they tell nothing at first, ascend with the states, are read again,
/// and have 64 bits.
#[tactic(auto, using(crate::proofs::Coded::code_laws))]
pub fn code_law<M: Packed>()
    ensures { (sums : List (Bool × M.Item)) → AllPass (is_seg_item M.is_item) sums →
        CodeLaws M.is_item (coding M.Packed) sums }
{
    know_coding::<M>();
}

/// Worked values of passes. A pass knows of a tile the higher of what it told and what it saw; a claim word of 3 over two
/// tiles stands for both of them, and one of 1 for the first alone.
pub fn pass_values()
    ensures told { told_at 0 worked_pass ≡ 1 }
    ensures known { known_at 0 worked_pass ≡ 2 }
    ensures unknown { known_at 1 worked_pass ≡ 0 }
    ensures looks { worked_pass.looks ≡ 1 }
    ensures given { (passes_joined worked_pass other_pass).hand.given ≡ 0 ∷ (1 ∷ []) }
    ensures done { (passes_joined worked_pass other_pass).hand.done ≡ 1 }
    ensures share { (passes_joined worked_pass other_pass).hand.share ≡ 2 }
    ensures stays { split_left (first_pass worked_sums 2) ≡ first_pass worked_sums 1 }
    ensures dealt { split_right (first_pass worked_sums 2) ≡ new_pass worked_sums }
    ensures both { once_claimed 2 3 1 ≡ 1 }
    ensures none_left { once_claimed 2 3 2 ≡ 0 }
    ensures first_alone { once_claimed 2 1 1 ≡ 0 }
{}
