//! Worked values of texts in parts: where each part's text or its integers have room, where its piece goes, and which it is.

ghost use Rattle.std.specs.Prelude.{◌≡◌, [], Ok, Err, codes};
ghost use Rattle.cvl_base.specs.declared.fault.FaultNo.TheVariants as no;
ghost use Rattle.cvl_base.specs.Faults.{fault};
ghost use Rattle.part_records.specs.Places.{layout};
ghost use Rattle.text_parts.specs.Pieces.{first_of, put_text_of};
ghost use Rattle.text_parts.specs.Places.{size_layout_by, text_layout_by};
ghost use Rattle.text_parts.specs.Rooms.{read_rooms_by, text_rooms_by};
ghost use Rattle.worked_values.specs.Written.{ints, length_mismatch, lengths};

/// An integer has room for 12 bytes, a boolean for 2, a segment for 3 more, and a text for 2 more.
pub fn rooms_of_texts()
    ensures of_integers { text_rooms_by 12 (lengths "0 2 2 5") (lengths "0 0 0 0") ≡ Ok (lengths "0 26 28 66") }
    ensures of_booleans { text_rooms_by 2 (lengths "0 3") (lengths "0 0") ≡ Ok (lengths "0 8") }
    ensures of_segments { text_rooms_by 12 (lengths "0 2 5") (lengths "0 1 3") ≡ Ok (lengths "0 29 73") }
    ensures too_many_elements { text_rooms_by 2 (lengths "0 2147483648") (lengths "0 0") ≡ Err (fault no.TooLong) }
    ensures too_many_segments { text_rooms_by 2 (lengths "0 1") (lengths "0 2147483648") ≡ Err (fault no.TooLong) }
    ensures other_lengths { text_rooms_by 2 (lengths "0 1") (lengths "0") ≡ Err length_mismatch }
{}

/// The pieces of `[1 2]`, `[]` and `[-3]` make `[1 2 -3]`.
pub fn pieces_of_texts()
    ensures places { text_layout_by 4 (lengths "5 2 4") ≡ Ok (layout (lengths "0 4 4 8") 8) }
    ensures first { put_text_of 0 5 (codes "[1 2]  ") 4 ≡ Ok (codes "[1 2") }
    ensures empty { put_text_of 4 2 (codes "[]") 0 ≡ Ok [] }
    ensures last { put_text_of 4 4 (codes "[-3]") 4 ≡ Ok (codes " -3]") }
    ensures last_is_empty { put_text_of 4 2 (codes "[]") 1 ≡ Ok (codes "]") }
    ensures all_are_empty { text_layout_by 3 (lengths "2 2") ≡ Ok (layout (lengths "0 0 2") 2) }
    ensures last_of_empty_ones { put_text_of 0 2 (codes "[]") 2 ≡ Ok (codes "[]") }
    ensures one_with_elements { text_layout_by 4 (lengths "2 5 2") ≡ Ok (layout (lengths "0 0 4 5") 5) }
    ensures alone { put_text_of 0 5 (codes "[1 2]") 5 ≡ Ok (codes "[1 2]") }
    ensures other_room { put_text_of 0 5 (codes "[1 2]") 6 ≡ Err length_mismatch }
    ensures own_too_short { put_text_of 0 5 (codes "[1 2") 4 ≡ Err length_mismatch }
    ensures no_last_place { text_layout_by 3 (lengths "5 2 4") ≡ Err length_mismatch }
{}

/// So many bytes have at most half as many integers, rounded up.
pub fn pieces_of_readings()
    ensures rooms { read_rooms_by (lengths "0 3 7 9") ≡ Ok (lengths "0 2 4 6") }
    ensures too_far { read_rooms_by (lengths "0 9223372036854775808") ≡ Err (fault no.TooLong) }
    ensures places { size_layout_by 4 (lengths "2 0 3") ≡ Ok (layout (lengths "0 2 2 5") 5) }
    ensures too_many { size_layout_by 3 (lengths "2147483647 1") ≡ Err (fault no.TooLong) }
    ensures no_last_place { size_layout_by 2 (lengths "2 3") ≡ Err length_mismatch }
    ensures own { first_of 2 (ints "7 8 9") ≡ Ok (ints "7 8") }
    ensures own_too_short { first_of 4 (ints "7 8 9") ≡ Err length_mismatch }
{}
