//! Marks of places, 32 in a word.

ghost use Rattle.std.specs.Prelude.{◌≡◌, ◌<◌, ◌≤◌, ◌/◌, Bool, List, count_ones, length, set, sum_by, true};
ghost use Rattle.cvl_base.specs.Limits.{most_places};
ghost use Rattle.permute_walks.specs.Marks.{mark_words, words_for};

/// How many marks a word has.
pub const WORD_BITS: usize = 32;

/// How many words so many marks take.
#[inline]
pub fn words_for(places: usize) -> usize
    ensures { result ≡ words_for places }
{
    places.div_ceil(WORD_BITS)
}

/// Marks a place.
#[inline]
#[tactic(auto, using(crate::proofs::MarkWords::marked_one))]
pub(crate) fn mark(marks: &mut [u32], place: usize)
    requires within { place / 32 < length marks.old }
    ensures { (flags : List Bool) → place < length flags → marks.old ≡ mark_words flags
        → marks.new ≡ mark_words (set flags place true) }
{
    marks[place / WORD_BITS] |= 1 << (place % WORD_BITS);
}

/// A word of marks and its number, held back from the others.
pub(crate) type HeldWord = (usize, u32);

/// The first word, to hold back; word 0 without marks if there is none.
#[inline]
#[tactic(auto, using(std::proofs::lemmas::List::set_past, crate::proofs::MarkWords::first_held))]
pub(crate) fn hold_first(marks: &[u32]) -> HeldWord
    ensures { set marks.now result.0 result.1 ≡ marks.now }
{
    if marks.is_empty() {
        return (0, 0);
    }
    (0, marks[0])
}

/// Writes the word that is held back, if there is such a word.
#[inline]
#[tactic(auto, using(std::proofs::lemmas::List::set_past))]
pub(crate) fn put_back(marks: &mut [u32], held: HeldWord)
    ensures { marks.new ≡ set marks.old held.0 held.1 }
{
    let (word, bits) = held;
    if word < marks.len() {
        marks[word] = bits;
    }
}

/// `mark` if a word is held back, and returns the word that is held back then: the one that has the place's mark.
// A processor waits for a store before it reads the same word again, and so for each mark if they are in order.
#[inline]
#[tactic(auto, using(crate::proofs::MarkWords::marked_one, crate::proofs::MarkWords::held_more))]
pub(crate) fn mark_held(marks: &mut [u32], held: HeldWord, place: usize) -> HeldWord
    requires within { place / 32 < length marks.old }
    ensures { (flags : List Bool) → place < length flags → set marks.old held.0 held.1 ≡ mark_words flags
        → set marks.new result.0 result.1 ≡ mark_words (set flags place true) }
{
    let (word, bits) = held;
    let named = place / WORD_BITS;
    let bit = 1 << (place % WORD_BITS);
    if named == word {
        return (word, bits | bit);
    }
    put_back(marks, held);
    (named, marks[named] | bit)
}

/// How many places are marked.
#[inline(never)]
pub fn count_marks(marks: &[u32]) -> usize
    requires few { length marks.now ≤ most_places }
    ensures { result ≡ sum_by count_ones marks.now }
{
    let mut count = 0;
    for word in marks {
        count += word.count_ones() as usize;
    }
    count
}
