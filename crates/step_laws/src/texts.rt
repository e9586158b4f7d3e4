//! Texts that are written and read by steps.

ghost use Rattle.std.specs.Prelude.{◌≡◌, ◌≢◌, ◌+◌, ◌≤◌, ℕ, ℤ, Bool, Err, List, length, map, slice_get, Some};
ghost use Rattle.std.specs.List.{AllPass};
ghost use Rattle.std.specs.Fmt.{signed_decimal};
ghost use Rattle.call_reader.specs.Inputs.{input_class, input_within};
ghost use Rattle.cvl_base.specs.declared.fault.Fault.{Fault};
ghost use Rattle.cvl_base.specs.declared.fault.FaultNo.TheVariants as no;
ghost use Rattle.cvl_base.specs.Faults.{fault};
ghost use Rattle.cvl_base.specs.ItemWords.{is_number};
ghost use Rattle.cvl_base.specs.Limits.{most_places};
ghost use Rattle.cvl_base.specs.Lists.{joined};
ghost use Rattle.line_reader.specs.Tokens.{tokens_by};
ghost use Rattle.part_cuts.specs.White.{IsCutAtWhite};
ghost use Rattle.part_records.specs.Totals.{total_within};
ghost use Rattle.step_laws.specs.PackSteps.{ranges_of};
ghost use Rattle.step_laws.specs.Steps.{InParts};
ghost use Rattle.step_laws.specs.TextParts.{AreCutAtWhite, TextPart, counts_of, items_of};
ghost use Rattle.step_laws.specs.TextSteps.{IsMadeBySteps, IsTooShortBySteps, Makes, OfBooleanSegments, OfBooleans};
ghost use Rattle.step_laws.specs.TextSteps.{OfIntegerSegments, OfIntegers, OfText};
ghost use Rattle.step_laws.specs.TextSteps.{booleans_text, integers_piece, integers_text, nested_text, text_piece};
ghost use Rattle.text_parts.specs.Places.{size_layout_by, text_layout_by};
ghost use Rattle.text_parts.specs.Rooms.{boolean_bytes, integer_bytes, integers_begin, text_begins};
ghost use Rattle.value_texts.specs.Texts.{boolean_text, nest_text, vector_text};
ghost use Rattle.c_calls.specs.Told.{Told, done};
ghost use Rattle.c_calls.specs.declared.status.CvlStatus.{CvlStatus};

/// A text by steps, of integers, booleans or segments: each part writes the text of its own elements or segments, in brackets,
/// into its range of a memory for all; once, the lengths of these texts say where each part's piece goes, and how long the text
/// of all is; if the room has places for it, each part puts its piece into its range of the room, without its own brackets.
/// Whatever these parts answer, the front of the room is the text of the whole, and the status and the count are the call's. If
/// the room is too short, status and count are the call's too, and the room is as before.
pub fn texts_by_steps()
    ensures integers { IsMadeBySteps integers_text text_layout_by text_piece OfIntegers }
    ensures integers_short { IsTooShortBySteps integers_text text_layout_by text_piece OfIntegers }
    ensures booleans { IsMadeBySteps booleans_text text_layout_by text_piece OfBooleans }
    ensures booleans_short { IsTooShortBySteps booleans_text text_layout_by text_piece OfBooleans }
    ensures integer_segments { IsMadeBySteps (nested_text signed_decimal) text_layout_by text_piece OfIntegerSegments }
    ensures integer_segments_short { IsTooShortBySteps (nested_text signed_decimal) text_layout_by text_piece OfIntegerSegments }
    ensures boolean_segments { IsMadeBySteps (nested_text boolean_text) text_layout_by text_piece OfBooleanSegments }
    ensures boolean_segments_short { IsTooShortBySteps (nested_text boolean_text) text_layout_by text_piece OfBooleanSegments }
{}

/// A text that is read by steps, cut at white space: each part reads its own integers into its range of a memory for all;
/// once, their numbers are added up; if a vector may have so many, they say, once, where the integers of each part go; if the
/// room has places for them, each part puts its own into its range of the room. Whatever these parts answer, the front of the
/// room has the integers of the whole, and the status and the count are the call's. If the room is too short, these are the
/// call's too, and the room is as before. If a vector may not have so many, the whole has this fault; and if a part has a
/// fault, so has the whole.
pub fn reads_by_steps()
    ensures fits { IsMadeBySteps (input_within most_places) size_layout_by integers_piece OfText }
    ensures too_short { IsTooShortBySteps (input_within most_places) size_layout_by integers_piece OfText }
    ensures too_many { (start made : List (TextPart ℕ ℤ)) (status : CvlStatus) (before now : ℕ) →
        AreCutAtWhite (map (λ p. p.items) start) → InParts (Makes (input_within most_places)) start made →
        Told (total_within (counts_of made)) status before now → status ≢ done →
        input_within most_places (items_of start) ≡ Err (fault no.TooLong) }
    ensures faults { (parts : List (List ℕ)) (k : ℕ) (bytes : List ℕ) (f : Fault) →
        AreCutAtWhite parts → slice_get parts k ≡ Some bytes → input_within most_places bytes ≡ Err f →
        (g : Fault) × (input_within most_places (joined parts) ≡ Err g) }
{}

/// A text that is cut at white space has the parts from each of these places up to the next one: they are the text, in order, and
/// each but the first is empty or begins at white space, so that they may be read by steps.
pub fn cut_texts_have_parts()
    ensures white { (text places : List ℕ) → IsCutAtWhite text places → AreCutAtWhite (ranges_of places text) }
    ensures whole { (text places : List ℕ) → IsCutAtWhite text places → joined (ranges_of places text) ≡ text }
{}

/// The memory for all has room for what each part makes, between where its range begins and where that of the next part does: an
/// integer has at most 11 bytes and a space, a boolean one and a space, a segment brackets and a space; and a part of a text has
/// at most one integer for each two bytes.
pub fn parts_have_room()
    ensures integers { (k start first : ℕ) (xs : List ℤ) → AllPass is_number xs →
        text_begins integer_bytes k start first + length (vector_text signed_decimal xs)
        ≤ text_begins integer_bytes (k + 1) (start + length xs) first }
    ensures booleans { (k start first : ℕ) (bs : List Bool) →
        text_begins boolean_bytes k start first + length (vector_text boolean_text bs)
        ≤ text_begins boolean_bytes (k + 1) (start + length bs) first }
    ensures integer_segments { (k start first : ℕ) (segments : List (List ℤ)) → AllPass is_number (joined segments) →
        text_begins integer_bytes k start first + length (nest_text signed_decimal segments)
        ≤ text_begins integer_bytes (k + 1) (start + length (joined segments)) (first + length segments) }
    ensures boolean_segments { (k start first : ℕ) (segments : List (List Bool)) →
        text_begins boolean_bytes k start first + length (nest_text boolean_text segments)
        ≤ text_begins boolean_bytes (k + 1) (start + length (joined segments)) (first + length segments) }
    ensures read { (k from : ℕ) (bytes : List ℕ) →
        integers_begin k from + length (tokens_by input_class bytes) ≤ integers_begin (k + 1) (from + length bytes) }
{}
