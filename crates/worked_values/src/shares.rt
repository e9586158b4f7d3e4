//! Worked values of how many threads share a call, near each length from which on one more does, and of what each thread has.

ghost use Rattle.std.specs.Prelude.{◌≡◌, [], ◌∷◌, ◌++◌, replicate};
ghost use Rattle.sharing.specs.Shares.{clearing_threads, first_of_two, reading_threads, text_threads, writing_threads};
ghost use Rattle.worked_values.specs.Shared.{by_workers, forked, in_turn};
ghost use Rattle.worked_values.specs.Written.{lengths};

/// The threads that write so many elements, for 1, 3, 4 and 64 workers.
pub fn writing()
    ensures nothing { by_workers writing_threads 0 ≡ lengths "1 1 1 1" }
    ensures below_two { by_workers writing_threads 262143 ≡ lengths "1 1 1 1" }
    ensures two { by_workers writing_threads 262144 ≡ lengths "1 2 2 2" }
    ensures above_two { by_workers writing_threads 262145 ≡ lengths "1 2 2 2" }
    ensures below_three { by_workers writing_threads 393215 ≡ lengths "1 2 2 2" }
    ensures three { by_workers writing_threads 393216 ≡ lengths "1 3 3 3" }
    ensures below_four { by_workers writing_threads 524287 ≡ lengths "1 3 3 3" }
    ensures four { by_workers writing_threads 524288 ≡ lengths "1 3 4 4" }
    ensures longest_vector { by_workers writing_threads 4194304 ≡ lengths "1 3 4 32" }
    ensures below_all { by_workers writing_threads 8388607 ≡ lengths "1 3 4 63" }
    ensures all { by_workers writing_threads 8388608 ≡ lengths "1 3 4 64" }
    ensures no_more { by_workers writing_threads 8519680 ≡ lengths "1 3 4 64" }
{}

/// The threads that read an input of so many bytes, and those that clear the memory for a file.
pub fn reading()
    ensures below_any { by_workers reading_threads 131071 ≡ lengths "1 1 1 1" }
    ensures four { by_workers reading_threads 131072 ≡ lengths "1 3 4 4" }
    ensures below_five { by_workers reading_threads 163839 ≡ lengths "1 3 4 4" }
    ensures five { by_workers reading_threads 163840 ≡ lengths "1 3 4 5" }
    ensures below_all { by_workers reading_threads 2097151 ≡ lengths "1 3 4 63" }
    ensures all { by_workers reading_threads 2097152 ≡ lengths "1 3 4 64" }
    ensures below_any_clearing { by_workers clearing_threads 1048575 ≡ lengths "1 1 1 1" }
    ensures four_clearing { by_workers clearing_threads 1048576 ≡ lengths "1 3 4 4" }
    ensures below_five_clearing { by_workers clearing_threads 1310719 ≡ lengths "1 3 4 4" }
    ensures five_clearing { by_workers clearing_threads 1310720 ≡ lengths "1 3 4 5" }
    ensures below_all_clearing { by_workers clearing_threads 16777215 ≡ lengths "1 3 4 63" }
    ensures all_clearing { by_workers clearing_threads 16777216 ≡ lengths "1 3 4 64" }
{}

/// The threads that write the texts of so many elements.
pub fn texts()
    ensures below_two { by_workers text_threads 32767 ≡ lengths "1 1 1 1" }
    ensures two { by_workers text_threads 32768 ≡ lengths "1 2 2 2" }
    ensures below_three { by_workers text_threads 49151 ≡ lengths "1 2 2 2" }
    ensures three { by_workers text_threads 49152 ≡ lengths "1 3 3 3" }
    ensures below_all { by_workers text_threads 1048575 ≡ lengths "1 3 4 63" }
    ensures all { by_workers text_threads 1048576 ≡ lengths "1 3 4 64" }
    ensures longest_vector { by_workers text_threads 4194304 ≡ lengths "1 3 4 64" }
    ensures too_long { by_workers text_threads 4194305 ≡ lengths "1 1 1 1" }
{}

/// How many threads a fork gives to the one that it starts: one up to eight, and then half of them.
pub fn fork()
    ensures two { first_of_two 2 ≡ 1 }
    ensures three { first_of_two 3 ≡ 1 }
    ensures most_by_one { first_of_two 8 ≡ 1 }
    ensures nine { first_of_two 9 ≡ 4 }
    ensures sixteen { first_of_two 16 ≡ 8 }
    ensures most { first_of_two 64 ≡ 32 }
{}

/// What each thread has, if forks cut the threads in two and if each in turn takes its share.
pub fn each_thread()
    ensures alone { forked 10 1 262143 ≡ lengths "262143" }
    ensures two { forked 10 2 262144 ≡ lengths "131072 131072" }
    ensures one_left_over { forked 10 2 262145 ≡ lengths "131072 131073" }
    ensures three { forked 10 3 393216 ≡ lengths "131072 131072 131072" }
    ensures few_to_three { forked 10 3 10 ≡ lengths "3 3 4" }
    ensures four { forked 10 4 524288 ≡ lengths "131072 131072 131072 131072" }
    ensures three_left_over { forked 10 4 524291 ≡ lengths "131072 131073 131073 131073" }
    ensures few_to_four { forked 10 4 7 ≡ lengths "1 2 2 2" }
    ensures nine { forked 10 9 1179657 ≡ replicate 9 131073 }
    ensures few_to_nine { forked 10 9 19 ≡ lengths "2 2 2 2 2 2 2 2 3" }
    ensures few_to_sixteen { forked 10 16 30 ≡ lengths "1 1 1 1 1 1 1 1 2 2 3 3 3 3 3 3" }
    ensures all { forked 10 64 8388608 ≡ replicate 64 131072 }
    ensures one_more { forked 10 64 8388609 ≡ replicate 63 131072 ++ 131073 ∷ [] }
    ensures alone_in_turn { in_turn 1 131071 ≡ lengths "131071" }
    ensures three_in_turn { in_turn 3 98304 ≡ lengths "32768 32768 32768" }
    ensures few_to_three_in_turn { in_turn 3 10 ≡ lengths "3 3 4" }
    ensures four_in_turn { in_turn 4 131075 ≡ lengths "32768 32769 32769 32769" }
    ensures few_to_four_in_turn { in_turn 4 7 ≡ lengths "1 2 2 2" }
    ensures all_in_turn { in_turn 64 2097152 ≡ replicate 64 32768 }
{}
