//! Worked values of orders, ranks and sorts of keys, and of sorts by key. Unless others are named the segments have 2, 0 and 3
//! elements.

ghost use Rattle.std.specs.Prelude.{◌≡◌, [], Ok, Err};
ghost use Rattle.orders.specs.Orders.{order_of, rank_of, seg_order_of, seg_rank_of, seg_sorted_of, sorted_of};
ghost use Rattle.orders.specs.SortsByKey.{ascending, descending, seg_sort_by_key_of, sort_by_key_of};
ghost use Rattle.worked_values.specs.Written.{ints, length_mismatch, lengths, segments};

/// Keys ascend as signed integers, and equal keys stay in the order of their places; in a segment places count from its start.
pub fn orders_of_keys()
    ensures order { order_of (ints "3 1 2 1") ≡ lengths "1 3 2 0" }
    ensures rank { rank_of (ints "3 1 2 1") ≡ lengths "3 0 2 1" }
    ensures sort { sorted_of (ints "3 1 2 1") ≡ ints "1 1 2 3" }
    ensures signed { order_of (ints "0 -1 5 -2147483648 2147483647") ≡ lengths "3 1 0 2 4" }
    ensures all_equal { order_of (ints "7 7 7") ≡ lengths "0 1 2" }
    ensures none { order_of [] ≡ [] }
    ensures order_in_segments { seg_order_of (ints "3 1 2 1 0") segments ≡ Ok (ints "1 0 2 1 0") }
    ensures rank_in_segments { seg_rank_of (ints "3 1 0 2 0") segments ≡ Ok (ints "1 0 0 2 1") }
    ensures sort_in_segments { seg_sorted_of (ints "3 1 2 1 0") segments ≡ Ok (ints "1 3 0 1 2") }
    ensures keys_short { seg_order_of (ints "3 1 2 1") segments ≡ Err length_mismatch }
{}

/// Each value goes where its key goes, and those of equal keys stay as they stood, in either direction.
pub fn sorts_by_key()
    ensures ascending { sort_by_key_of ascending (ints "3 1 2 1") (ints "10 20 30 40")
        ≡ Ok (ints "1 1 2 3", ints "20 40 30 10") }
    ensures descending { sort_by_key_of descending (ints "3 1 2 1") (ints "10 20 30 40")
        ≡ Ok (ints "3 2 1 1", ints "10 30 20 40") }
    ensures signed { sort_by_key_of ascending (ints "0 -1 -2147483648 2147483647") (ints "1 2 3 4")
        ≡ Ok (ints "-2147483648 -1 0 2147483647", ints "3 2 1 4") }
    ensures in_segments { seg_sort_by_key_of ascending (ints "3 1 9 2 2") (ints "10 20 30 40 50") segments
        ≡ Ok (ints "1 3 2 2 9", ints "20 10 40 50 30") }
    ensures descending_in_segments { seg_sort_by_key_of descending (ints "1 3 2 9 2") (ints "10 20 30 40 50") segments
        ≡ Ok (ints "3 1 9 2 2", ints "20 10 40 30 50") }
    ensures values_short { sort_by_key_of ascending (ints "3 1") (ints "10") ≡ Err length_mismatch }
    ensures lengths_short { seg_sort_by_key_of ascending (ints "3 1") (ints "10 20") segments ≡ Err length_mismatch }
{}
