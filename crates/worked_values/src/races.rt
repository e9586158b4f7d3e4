//! Worked values of races: the tile and the workers of the race for so many elements, from the tile and the workers that you ask
//! for.

ghost use Rattle.std.specs.Prelude.{◌≡◌, None, Some, false, true};
ghost use Rattle.sharing.specs.Races.{permute_race, race_of, reduce_race, scan_race, search_race};
ghost use Rattle.worked_values.specs.Shared.{tiles_and_workers};

/// In tiles of 1,024 elements or more there is a race if it pays, for two workers or more who have 131,072 elements each, in
/// tiles that leave 16 to each of them, but no tile is shorter than you ask for, nor longer than 65,536.
pub fn long_tiles()
    ensures one_element { scan_race (tiles_and_workers 1024 4) 1 ≡ None }
    ensures below_two { scan_race (tiles_and_workers 4096 4) 262143 ≡ None }
    ensures two { scan_race (tiles_and_workers 4096 4) 262144 ≡ Some (tiles_and_workers 8192 2) }
    ensures two_in_the_shortest { scan_race (tiles_and_workers 1024 4) 262144 ≡ Some (tiles_and_workers 8192 2) }
    ensures two_in_the_longest { scan_race (tiles_and_workers 65536 3) 262145 ≡ Some (tiles_and_workers 65536 2) }
    ensures below_three { scan_race (tiles_and_workers 4096 4) 393215 ≡ Some (tiles_and_workers 12287 2) }
    ensures three { scan_race (tiles_and_workers 4096 4) 393216 ≡ Some (tiles_and_workers 8192 3) }
    ensures below_four { scan_race (tiles_and_workers 4096 4) 524287 ≡ Some (tiles_and_workers 10922 3) }
    ensures four { scan_race (tiles_and_workers 4096 4) 524288 ≡ Some (tiles_and_workers 8192 4) }
    ensures of_three { scan_race (tiles_and_workers 4096 3) 524288 ≡ Some (tiles_and_workers 10922 3) }
    ensures as_asked { scan_race (tiles_and_workers 8193 4) 524288 ≡ Some (tiles_and_workers 8193 4) }
    ensures of_one { scan_race (tiles_and_workers 4096 1) 4194304 ≡ None }
    ensures of_two { scan_race (tiles_and_workers 1024 2) 4194304 ≡ Some (tiles_and_workers 65536 2) }
    ensures of_all { scan_race (tiles_and_workers 1024 64) 4194304 ≡ Some (tiles_and_workers 8192 32) }
    ensures too_long { scan_race (tiles_and_workers 1024 64) 4194305 ≡ None }
    ensures enough_for_one { race_of true (tiles_and_workers 4096 4) 262143 ≡ None }
    ensures for_nothing { race_of false (tiles_and_workers 4096 4) 4194304 ≡ None }
{}

/// In shorter tiles there is the race that you ask for, however many elements there are.
pub fn short_tiles()
    ensures nothing { scan_race (tiles_and_workers 1023 4) 0 ≡ None }
    ensures one_element { scan_race (tiles_and_workers 1023 4) 1 ≡ Some (tiles_and_workers 1023 4) }
    ensures by_one { scan_race (tiles_and_workers 1 1) 262144 ≡ Some (tiles_and_workers 1 1) }
    ensures by_all { scan_race (tiles_and_workers 1023 64) 4194304 ≡ Some (tiles_and_workers 1023 64) }
    ensures too_long { scan_race (tiles_and_workers 1023 64) 4194305 ≡ None }
    ensures for_nothing { race_of false (tiles_and_workers 1023 4) 5 ≡ Some (tiles_and_workers 1023 4) }
{}

/// A reduce is raced for by its bytes, a search for a fault by its elements, and a permute only in short tiles.
pub fn other_calls()
    ensures few_bytes { reduce_race (tiles_and_workers 4096 4) 1048575 1048575 ≡ None }
    ensures bytes { reduce_race (tiles_and_workers 4096 4) 1048576 1048576 ≡ Some (tiles_and_workers 16384 4) }
    ensures few_integers { reduce_race (tiles_and_workers 4096 4) 262143 1048572 ≡ None }
    ensures integers { reduce_race (tiles_and_workers 4096 4) 262144 1048576 ≡ Some (tiles_and_workers 8192 2) }
    ensures short_search { search_race (tiles_and_workers 4096 4) 262143 ≡ None }
    ensures search { search_race (tiles_and_workers 4096 4) 262144 ≡ Some (tiles_and_workers 8192 2) }
    ensures permute { permute_race (tiles_and_workers 1023 4) 5 7 ≡ Some (tiles_and_workers 1023 4) }
    ensures permute_in_long_tiles { permute_race (tiles_and_workers 1024 4) 4194304 4194304 ≡ None }
    ensures longest_permute { permute_race (tiles_and_workers 1023 4) 4194304 4194304 ≡ Some (tiles_and_workers 1023 4) }
    ensures too_many_places { permute_race (tiles_and_workers 1023 4) 5 4194305 ≡ None }
    ensures too_many_indices { permute_race (tiles_and_workers 1023 4) 4194305 5 ≡ None }
    ensures no_index { permute_race (tiles_and_workers 1023 4) 0 7 ≡ None }
{}
