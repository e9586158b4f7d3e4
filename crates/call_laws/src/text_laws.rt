//! Laws of inputs and texts in parts, as a function that takes and gives nothing and whose contract is the law.

ghost use Rattle.std.specs.Prelude.{◌≡◌, ◌+◌, ◌<◌, ◌≤◌, ℕ, IsTrue, List, ◌∷◌, ◌++◌, codes, length, map};
ghost use Rattle.std.specs.List.{join_with_byte};
ghost use Rattle.call_laws.specs.InParts.{in_turn, in_two};
ghost use Rattle.call_reader.specs.Inputs.{input_class, input_within, is_white_space};
ghost use Rattle.cvl_base.specs.Limits.{most_places};
ghost use Rattle.line_reader.specs.Tokens.{tokens_by};
ghost use Rattle.part_calls.specs.Pieces.{piece_of};
ghost use Rattle.value_texts.specs.Texts.{vector_text};

/// A text cut at white space: its tokens are those of the two parts, and so are its numbers, if there are no more tokens than the
/// limit of the call; the place of a bad token of the second part moves by the number of tokens of the first. A piece after so
/// many tokens is cut in the same way, so that a text may be read in any number of pieces; a piece after none is the text. The
/// text of a vector has the texts of its parts between brackets, and a blank between them.
pub fn texts_in_parts<T>()
    ensures tokens { (first others : List ℕ) (byte : ℕ) → IsTrue (is_white_space byte) →
        tokens_by input_class (first ++ byte ∷ others) ≡ tokens_by input_class first ++ tokens_by input_class others }
    ensures numbers { (most : ℕ) (first others : List ℕ) (byte : ℕ) → IsTrue (is_white_space byte) →
        length (tokens_by input_class (first ++ byte ∷ others)) ≤ most →
        input_within most (first ++ byte ∷ others)
        ≡ in_two (length (tokens_by input_class first)) (input_within most first) (input_within most others) }
    ensures pieces { (before : ℕ) (first others : List ℕ) (byte : ℕ) → IsTrue (is_white_space byte) →
        before + length (tokens_by input_class (first ++ byte ∷ others)) ≤ most_places →
        piece_of before (first ++ byte ∷ others)
        ≡ in_turn (piece_of before first) (piece_of (before + length (tokens_by input_class first)) others) }
    ensures first_piece { (text : List ℕ) → piece_of 0 text ≡ input_within most_places text }
    ensures texts { (text_of : T → List ℕ) (xs ys : List T) → 0 < length xs → 0 < length ys →
        vector_text text_of (xs ++ ys)
        ≡ codes "[" ++ ((join_with_byte 32 (map text_of xs) ++ 32 ∷ join_with_byte 32 (map text_of ys)) ++ codes "]") }
{}
