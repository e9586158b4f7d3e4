//! Laws of status words, each a function that takes and gives nothing and whose contract is the law.

ghost use Rattle.std.specs.Prelude.{◌≡◌, ℕ, ◌+◌, ◌-◌, ◌*◌, ◌<◌, ◌^◌, ℤ, pos, negsuc, Bool, true, false, Some, None, List, []};
ghost use Rattle.std.specs.Prelude.{◌∷◌, ◌++◌, length, replicate};
ghost use Rattle.std.specs.List.{All, AllPass};
ghost use Rattle.cvl_base.specs.SegmentMonoid.{is_seg_item};
ghost use Rattle.cvl_base.specs.TileSums.{SumsLaws};
ghost use Rattle.status_word.specs.declared.status.Status.{Status};
ghost use Rattle.status_word.specs.declared.status.Status.TheVariants as status;
ghost use Rattle.status_word.specs.Codings.{CodingLaws, coding};
ghost use Rattle.status_word.specs.Words.{read_word, word_of, state_of, FitsWord};
ghost use Rattle.status_word.specs.WorkedWorlds.{AllStopped, empty_steps, empty_world, worked_steps, worked_turns, worked_words};
ghost use Rattle.status_word.specs.WorkedWorlds.{worked_world};
ghost use Rattle.status_word.specs.Worlds.{IsWorldAfter, LowersBy, RunLowers, Scene, left_of, new_scene};

use cvl_base::Packed;
use cvl_base::monoid::know_words;
use cvl_base::tile_sums::know_sums;

/// Packing and reading a word are inverse, a word has 64 bits, and a lesser state has a lesser word.
pub fn word_law()
    ensures inverse { (s : Status ℤ) → FitsWord s → read_word (word_of s) ≡ Some s }
    ensures only { (word : ℕ) (s : Status ℤ) → word < 2 ^ 64 → read_word word ≡ Some s →
        FitsWord s × (word_of s ≡ word) }
    ensures fits { (s : Status ℤ) → FitsWord s → word_of s < 2 ^ 64 }
    ensures ascending { (s t : Status ℤ) → FitsWord s → FitsWord t → state_of s < state_of t →
        word_of s < word_of t }
{}

/// Worked values of words.
pub fn word_values()
    ensures silent { word_of status.Silent ≡ 0 }
    ensures sum { word_of (status.Sum false (pos 5)) ≡ 4611686018427387909 }
    ensures prefix { word_of (status.Prefix true (negsuc 0)) ≡ 11547229444577951743 }
    ensures least_number { word_of (status.Sum false (negsuc 2147483647)) ≡ 4629700414789386240 }
    ensures of_zero { read_word 0 ≡ Some status.Silent }
    ensures of_one { read_word 1 ≡ None }
    ensures of_wide { read_word 9223372041149743104 ≡ Some (status.Prefix false (pos 4294967296)) }
    ensures of_bit_54 { read_word 4629700416936869888 ≡ None }
    ensures of_state_three { read_word 13835058055282163712 ≡ None }
{}

/// That the words of a packed monoid ascend with their states and are read again, and how its sums fit together.
#[tactic(auto, using(crate::proofs::Packed::coding_laws))]
pub(crate) fn know_coding<M: Packed>()
    ensures coded { CodingLaws M.is_item (coding M.Packed) }
    ensures sums { (sums : List (Bool × M.Item)) → AllPass (is_seg_item M.is_item) sums → SumsLaws M.is_item M.join M.unit sums }
{
    word_law();
    know_words::<M>();
    know_sums::<M>();
}

/// The world of workers, for each monoid with words, all sums of tiles and every list of the workers that take a step: each
/// word is lawful at its tile; what the workers hold is right; the tiles that they hold are distinct and claimed; each other
/// tile that is claimed has its prefix; and what the workers did keeps the scan board's rule.
///
/// Source: Merrill and Garland's decoupled look-back.
pub fn world_law<M: Packed>()
    ensures { (sums : List (Bool × M.Item)) (workers : ℕ) (actors : List ℕ) →
        AllPass (is_seg_item M.is_item) sums → All (λ a. a < workers) actors →
        IsWorldAfter (coding M.Packed) sums workers actors }
{
    know_coding::<M>();
}

/// A step that a worker takes lowers the number of steps that are left, so a run takes no more of them than were left at
/// its start less those that are left at its end; in a new world of n tiles and W workers these are 3n + n(n-1) + W.
#[tactic(auto, using(crate::proofs::Lowered::lowers))]
pub fn left_law<M: Packed>()
    ensures lowered { (w : Scene M.Item) (actor : ℕ) → actor < length w.locals →
        LowersBy (coding M.Packed) w actor }
    ensures run { (w : Scene M.Item) (actors : List ℕ) → All (λ a. a < length w.locals) actors →
        RunLowers (coding M.Packed) w actors }
    ensures first { (sums : List (Bool × M.Item)) (workers : ℕ) →
        left_of (new_scene sums workers)
        ≡ 3 * length sums + length sums * (length sums - 1) + workers }
{}

/// Worked values of the world. Over two tiles with the sums 5 and 7 two workers take ten steps in all, after which neither
/// takes a further one, and one worker takes eight. With no tile, each of three workers takes one.
pub fn world_values()
    ensures two_workers { AllStopped (worked_world 2 worked_turns) 4 worked_words 2 }
    ensures ten_steps { worked_steps 2 worked_turns ≡ 10 }
    ensures no_more_steps { worked_steps 2 (worked_turns ++ (0 ∷ (1 ∷ []))) ≡ 10 }
    ensures one_worker { AllStopped (worked_world 1 (replicate 12 0)) 3 worked_words 1 }
    ensures eight_steps { worked_steps 1 (replicate 12 0) ≡ 8 }
    ensures words { worked_words
        ≡ word_of (status.Prefix false (pos 5)) ∷ (word_of (status.Prefix false (pos 12)) ∷ []) }
    ensures no_tile { AllStopped (empty_world (0 ∷ (1 ∷ (2 ∷ (0 ∷ []))))) 3 [] 3 }
    ensures three_steps { empty_steps (0 ∷ (1 ∷ (2 ∷ (0 ∷ [])))) ≡ 3 }
{}
