//! Laws of segmented calls of several vectors that are cut in two between the same segments, each a function that takes and gives
//! nothing and whose contract is the law.

ghost use Rattle.std.specs.Prelude.{◌≡◌, ℕ, ℤ, Bool, List, ◌++◌, length, sum};
ghost use Rattle.call_laws.specs.InParts.{in_two};
ghost use Rattle.cvl_base.specs.SegmentedCalls.{seg_back_of, seg_default_of, seg_distribute_within, seg_extract_of};
ghost use Rattle.cvl_base.specs.SegmentedCalls.{seg_index_within, seg_pack_of, seg_replace_of, seg_select_of, seg_simple_of};

/// A segmented permute or pack whose vectors are all cut between the same two segments is that of the first segments and that of
/// the others. The place of a fault of the others moves by the length of the first part of the index.
pub fn segmented_permutes_in_parts<T>()
    ensures simple { (source more : List T) (index others : List ℤ) (lengths later : List ℕ) →
        sum lengths ≡ length source → sum lengths ≡ length index → sum later ≡ length more → sum later ≡ length others →
        seg_simple_of (source ++ more) (index ++ others) (lengths ++ later)
        ≡ in_two (sum lengths) (seg_simple_of source index lengths) (seg_simple_of more others later) }
    ensures back { (source more : List T) (index others : List ℤ) (lengths later index_lengths index_later : List ℕ) →
        sum lengths ≡ length source → sum index_lengths ≡ length index → sum later ≡ length more
        → sum index_later ≡ length others →
        length lengths ≡ length index_lengths → length later ≡ length index_later →
        seg_back_of (source ++ more) (index ++ others) (lengths ++ later) (index_lengths ++ index_later)
        ≡ in_two (sum index_lengths) (seg_back_of source index lengths index_lengths)
        (seg_back_of more others later index_later) }
    ensures select { (source more : List T) (index others : List ℤ) (lengths later : List ℕ) →
        sum lengths ≡ length source → sum lengths ≡ length index → sum later ≡ length more → sum later ≡ length others →
        (flags more_flags : List Bool) → sum lengths ≡ length flags → sum later ≡ length more_flags →
        seg_select_of (source ++ more) (index ++ others) (flags ++ more_flags) (lengths ++ later)
        ≡ in_two (sum lengths) (seg_select_of source index flags lengths) (seg_select_of more others more_flags later) }
    ensures default_into { (source more : List T) (index others : List ℤ) (lengths later : List ℕ) →
        sum lengths ≡ length source → sum lengths ≡ length index → sum later ≡ length more → sum later ≡ length others →
        (defaults more_defaults : List T) (default_lengths default_later : List ℕ) →
        sum default_lengths ≡ length defaults → sum default_later ≡ length more_defaults →
        length lengths ≡ length default_lengths → length later ≡ length default_later →
        seg_default_of (source ++ more) (index ++ others) (defaults ++ more_defaults) (lengths ++ later)
        (default_lengths ++ default_later)
        ≡ in_two (sum lengths) (seg_default_of source index defaults lengths default_lengths)
        (seg_default_of more others more_defaults later default_later) }
    ensures pack { (xs more : List T) (flags more_flags : List Bool) (lengths later : List ℕ) →
        sum lengths ≡ length xs → sum lengths ≡ length flags → sum later ≡ length more → sum later ≡ length more_flags →
        seg_pack_of (xs ++ more) (flags ++ more_flags) (lengths ++ later)
        ≡ in_two (sum lengths) (seg_pack_of xs flags lengths) (seg_pack_of more more_flags later) }
{}

/// The same for segmented calls that take one value or index for each segment, which are cut where the lengths are. The place of
/// a fault of an extract or a replace moves by the number of the first segments.
pub fn segmented_values_in_parts<T>()
    ensures distribute { (most : ℕ) (lengths later : List ℕ) (values more : List T) → length values ≡ length lengths
        → length more ≡ length later →
        seg_distribute_within most (values ++ more) (lengths ++ later)
        ≡ in_two (sum lengths) (seg_distribute_within most values lengths) (seg_distribute_within most more later) }
    ensures index { (most : ℕ) (lengths later : List ℕ) (inits more strides others : List ℤ) →
        length inits ≡ length lengths → length strides ≡ length lengths → length more ≡ length later
        → length others ≡ length later →
        seg_index_within most (inits ++ more) (strides ++ others) (lengths ++ later)
        ≡ in_two (sum lengths) (seg_index_within most inits strides lengths) (seg_index_within most more others later) }
    ensures extract { (lengths later : List ℕ) (xs more : List T) (index others : List ℤ) →
        sum lengths ≡ length xs → sum later ≡ length more → length index ≡ length lengths → length others ≡ length later →
        seg_extract_of (xs ++ more) (index ++ others) (lengths ++ later)
        ≡ in_two (length lengths) (seg_extract_of xs index lengths) (seg_extract_of more others later) }
    ensures replace { (lengths later : List ℕ) (xs more : List T) (index others : List ℤ) →
        sum lengths ≡ length xs → sum later ≡ length more → length index ≡ length lengths → length others ≡ length later →
        (values more_values : List T) → length values ≡ length lengths → length more_values ≡ length later →
        seg_replace_of (xs ++ more) (index ++ others) (values ++ more_values) (lengths ++ later)
        ≡ in_two (length lengths) (seg_replace_of xs index values lengths) (seg_replace_of more others more_values later) }
{}
