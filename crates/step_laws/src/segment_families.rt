//! The families of calls that go segment by segment, each as a law: the call is made of the calls on some parts, whose operands
//! have whole segments. What the parts have in order is what the whole has.

ghost use Rattle.std.specs.Prelude.{◌≡◌, ◌≤◌, ℕ, ℤ, Bool, List, Ok, Result, length, map};
ghost use Rattle.combining_permutes.specs.CombiningPermutes.{seg_combine_of, seg_place_counts_of};
ghost use Rattle.cvl_base.specs.declared.fault.Fault.{Fault};
ghost use Rattle.cvl_base.specs.Elementwise.{if_as_long};
ghost use Rattle.cvl_base.specs.Limits.{most_places};
ghost use Rattle.cvl_base.specs.SegmentedCalls.{seg_back_of, seg_default_of, seg_extract_of, seg_replace_of, seg_select_of};
ghost use Rattle.cvl_base.specs.SegmentedCalls.{seg_simple_of};
ghost use Rattle.exact_combines.specs.ExactCombines.{seg_checked_combine_of, seg_exact_sums_of};
ghost use Rattle.first_senders.specs.FirstSenders.{seg_first_senders_of, seg_select_first_senders_of};
ghost use Rattle.flag_merges.specs.Merges.{seg_merge_of};
ghost use Rattle.flag_calls.specs.Flags.{made_flags};
ghost use Rattle.orders.specs.Orders.{seg_order_of, seg_rank_of, seg_sorted_of};
ghost use Rattle.orders.specs.SortsByKey.{seg_sort_by_key_of};
ghost use Rattle.segment_slices.specs.Pairs.{append_segments_of};
ghost use Rattle.segment_slices.specs.Slices.{gather_segments_of};
ghost use Rattle.segment_values.specs.Values.{each_of};
ghost use Rattle.sparse_products.specs.Answers.{checked_rows_product, rows_product};
ghost use Rattle.step_laws.specs.SegmentCalls.{AddUp, AreMadeOf, AsMany, IsMadeOf, of_all};
ghost use Rattle.c_calls.specs.Calls.{by_operator, by_segments, in_limit, lengths_of};

/// Permutes by segments.
pub fn permutes_go_by_segments<P, X>()
    ensures simple { (parts : List P) (source : P → List X) (index lengths : P → List ℤ) (segments : List ℕ) →
        lengths_of (of_all lengths parts) ≡ Ok segments → length (of_all index parts) ≤ most_places →
        AddUp lengths source parts → AddUp lengths index parts →
        IsMadeOf (by_segments (of_all lengths parts)
        (λ d. in_limit (of_all index parts) (seg_simple_of (of_all source parts) (of_all index parts) d)))
        (map (λ p. by_segments (lengths p) (λ d. in_limit (index p) (seg_simple_of (source p) (index p) d))) parts) }
    ensures select { (parts : List P) (source : P → List X) (index lengths : P → List ℤ) (flags : P → List Bool)
        (segments : List ℕ) →
        lengths_of (of_all lengths parts) ≡ Ok segments → length (of_all index parts) ≤ most_places →
        AddUp lengths source parts → AddUp lengths index parts → AddUp lengths flags parts →
        IsMadeOf (by_segments (of_all lengths parts)
        (λ d. in_limit (of_all index parts) (seg_select_of (of_all source parts) (of_all index parts) (of_all flags parts) d)))
        (map (λ p. by_segments (lengths p) (λ d. in_limit (index p) (seg_select_of (source p) (index p) (flags p) d))) parts) }
    ensures default_into { (parts : List P) (source defaults : P → List X) (index lengths others : P → List ℤ)
        (segments also : List ℕ) →
        lengths_of (of_all lengths parts) ≡ Ok segments → lengths_of (of_all others parts) ≡ Ok also →
        length (of_all index parts) ≤ most_places → AsMany lengths others parts →
        AddUp lengths source parts → AddUp lengths index parts → AddUp others defaults parts →
        IsMadeOf (by_segments (of_all lengths parts) (λ d. by_segments (of_all others parts)
        (λ e. in_limit (of_all index parts)
        (seg_default_of (of_all source parts) (of_all index parts) (of_all defaults parts) d e))))
        (map (λ p. by_segments (lengths p) (λ d. by_segments (others p)
        (λ e. in_limit (index p) (seg_default_of (source p) (index p) (defaults p) d e)))) parts) }
    ensures back { (parts : List P) (source : P → List X) (index lengths others : P → List ℤ) (segments also : List ℕ) →
        lengths_of (of_all lengths parts) ≡ Ok segments → lengths_of (of_all others parts) ≡ Ok also →
        length (of_all index parts) ≤ most_places → AsMany lengths others parts →
        AddUp lengths source parts → AddUp others index parts →
        IsMadeOf (by_segments (of_all lengths parts) (λ d. by_segments (of_all others parts)
        (λ e. in_limit (of_all index parts) (seg_back_of (of_all source parts) (of_all index parts) d e))))
        (map (λ p. by_segments (lengths p) (λ d. by_segments (others p)
        (λ e. in_limit (index p) (seg_back_of (source p) (index p) d e)))) parts) }
{}

/// First senders, counts by place and combining permutes by segments: each segment of the index has one of the result.
pub fn sends_go_by_segments<P, O, X>()
    ensures first { (parts : List P) (index lengths others : P → List ℤ) (segments also : List ℕ) →
        lengths_of (of_all lengths parts) ≡ Ok segments → lengths_of (of_all others parts) ≡ Ok also →
        length (of_all index parts) ≤ most_places → AsMany lengths others parts → AddUp lengths index parts →
        IsMadeOf (by_segments (of_all lengths parts) (λ d. by_segments (of_all others parts)
        (λ e. in_limit (of_all index parts) (seg_first_senders_of (of_all index parts) d e))))
        (map (λ p. by_segments (lengths p) (λ d. by_segments (others p)
        (λ e. in_limit (index p) (seg_first_senders_of (index p) d e)))) parts) }
    ensures select_first { (parts : List P) (index lengths others : P → List ℤ) (flags : P → List Bool) (segments also : List ℕ) →
        lengths_of (of_all lengths parts) ≡ Ok segments → lengths_of (of_all others parts) ≡ Ok also →
        length (of_all index parts) ≤ most_places → AsMany lengths others parts →
        AddUp lengths index parts → AddUp lengths flags parts →
        IsMadeOf (by_segments (of_all lengths parts) (λ d. by_segments (of_all others parts)
        (λ e. in_limit (of_all index parts) (seg_select_first_senders_of (of_all index parts) (of_all flags parts) d e))))
        (map (λ p. by_segments (lengths p) (λ d. by_segments (others p)
        (λ e. in_limit (index p) (seg_select_first_senders_of (index p) (flags p) d e)))) parts) }
    ensures counts { (parts : List P) (index lengths others : P → List ℤ) (segments also : List ℕ) →
        lengths_of (of_all lengths parts) ≡ Ok segments → lengths_of (of_all others parts) ≡ Ok also →
        AsMany lengths others parts → AddUp lengths index parts →
        IsMadeOf (by_segments (of_all lengths parts) (λ d. by_segments (of_all others parts)
        (seg_place_counts_of (of_all index parts) d)))
        (map (λ p. by_segments (lengths p) (λ d. by_segments (others p) (seg_place_counts_of (index p) d))) parts) }
    ensures combined { (operator : Result O Fault) (join_of : O → X → X → X) (o : O) (parts : List P) (source room : P → List X)
        (index lengths others : P → List ℤ) (segments also : List ℕ) → operator ≡ Ok o →
        lengths_of (of_all lengths parts) ≡ Ok segments → lengths_of (of_all others parts) ≡ Ok also →
        AsMany lengths others parts → AddUp lengths source parts → AddUp lengths index parts → AddUp others room parts →
        IsMadeOf (by_operator operator (λ op. by_segments (of_all lengths parts) (λ d. by_segments (of_all others parts)
        (λ e. seg_combine_of (join_of op) (of_all source parts) (of_all index parts) d e (of_all room parts)))))
        (map (λ p. by_operator operator (λ op. by_segments (lengths p) (λ d. by_segments (others p)
        (λ e. seg_combine_of (join_of op) (source p) (index p) d e (room p))))) parts) }
{}

/// Orders, ranks and sorts by segments, into a room and over the keys.
pub fn orders_go_by_segments<P>()
    ensures order { (parts : List P) (keys lengths room : P → List ℤ) (segments : List ℕ) →
        lengths_of (of_all lengths parts) ≡ Ok segments → length (of_all keys parts) ≤ most_places →
        AddUp lengths keys parts → AsMany keys room parts →
        IsMadeOf (by_segments (of_all lengths parts) (λ d. in_limit (of_all keys parts)
        (if_as_long (of_all keys parts) (of_all room parts) (seg_order_of (of_all keys parts) d))))
        (map (λ p. by_segments (lengths p) (λ d. in_limit (keys p)
        (if_as_long (keys p) (room p) (seg_order_of (keys p) d)))) parts) }
    ensures rank { (parts : List P) (keys lengths room : P → List ℤ) (segments : List ℕ) →
        lengths_of (of_all lengths parts) ≡ Ok segments → length (of_all keys parts) ≤ most_places →
        AddUp lengths keys parts → AsMany keys room parts →
        IsMadeOf (by_segments (of_all lengths parts) (λ d. in_limit (of_all keys parts)
        (if_as_long (of_all keys parts) (of_all room parts) (seg_rank_of (of_all keys parts) d))))
        (map (λ p. by_segments (lengths p) (λ d. in_limit (keys p)
        (if_as_long (keys p) (room p) (seg_rank_of (keys p) d)))) parts) }
    ensures sort { (parts : List P) (keys lengths room : P → List ℤ) (segments : List ℕ) →
        lengths_of (of_all lengths parts) ≡ Ok segments → length (of_all keys parts) ≤ most_places →
        AddUp lengths keys parts → AsMany keys room parts →
        IsMadeOf (by_segments (of_all lengths parts) (λ d. in_limit (of_all keys parts)
        (if_as_long (of_all keys parts) (of_all room parts) (seg_sorted_of (of_all keys parts) d))))
        (map (λ p. by_segments (lengths p) (λ d. in_limit (keys p)
        (if_as_long (keys p) (room p) (seg_sorted_of (keys p) d)))) parts) }
    ensures sort_in { (parts : List P) (keys lengths : P → List ℤ) (segments : List ℕ) →
        lengths_of (of_all lengths parts) ≡ Ok segments → length (of_all keys parts) ≤ most_places → AddUp lengths keys parts →
        IsMadeOf (by_segments (of_all lengths parts) (λ d. in_limit (of_all keys parts) (seg_sorted_of (of_all keys parts) d)))
        (map (λ p. by_segments (lengths p) (λ d. in_limit (keys p) (seg_sorted_of (keys p) d))) parts) }
{}

/// Sorts by key by segments, over the keys and their values, in either direction.
pub fn sorts_by_key_go_by_segments<P>()
    ensures { (before : ℤ → ℤ → Bool) (parts : List P) (keys values lengths : P → List ℤ) (segments : List ℕ) →
        lengths_of (of_all lengths parts) ≡ Ok segments → length (of_all keys parts) ≤ most_places →
        AddUp lengths keys parts → AsMany keys values parts →
        AreMadeOf (by_segments (of_all lengths parts) (λ d. in_limit (of_all keys parts)
        (seg_sort_by_key_of before (of_all keys parts) (of_all values parts) d)))
        (map (λ p. by_segments (lengths p) (λ d. in_limit (keys p) (seg_sort_by_key_of before (keys p) (values p) d))) parts) }
{}

/// One value of each segment, by any function of it, as its first true flag, its exact sum or the number of its runs; its element
/// at an index, also of flags that come as bytes; and segments of which the element at an index is replaced.
pub fn values_go_by_segments<P, X, V>()
    ensures each { (value : List X → V) (parts : List P) (xs : P → List X) (lengths : P → List ℤ) (segments : List ℕ) →
        lengths_of (of_all lengths parts) ≡ Ok segments → AddUp lengths xs parts →
        IsMadeOf (by_segments (of_all lengths parts) (each_of value (of_all xs parts)))
        (map (λ p. by_segments (lengths p) (each_of value (xs p))) parts) }
    ensures extract { (parts : List P) (xs : P → List X) (index lengths : P → List ℤ) (segments : List ℕ) →
        lengths_of (of_all lengths parts) ≡ Ok segments → AddUp lengths xs parts → AsMany index lengths parts →
        IsMadeOf (by_segments (of_all lengths parts) (seg_extract_of (of_all xs parts) (of_all index parts)))
        (map (λ p. by_segments (lengths p) (seg_extract_of (xs p) (index p))) parts) }
    ensures extract_flags { (parts : List P) (bytes : P → List ℕ) (index lengths : P → List ℤ) (segments : List ℕ) →
        lengths_of (of_all lengths parts) ≡ Ok segments → AddUp lengths bytes parts → AsMany index lengths parts →
        IsMadeOf (made_flags (by_segments (of_all lengths parts) (seg_extract_of (of_all bytes parts) (of_all index parts))))
        (map (λ p. made_flags (by_segments (lengths p) (seg_extract_of (bytes p) (index p)))) parts) }
    ensures replace { (parts : List P) (xs values : P → List X) (index lengths : P → List ℤ) (segments : List ℕ) →
        lengths_of (of_all lengths parts) ≡ Ok segments → AddUp lengths xs parts →
        AsMany index lengths parts → AsMany values lengths parts →
        IsMadeOf (by_segments (of_all lengths parts)
        (seg_replace_of (of_all xs parts) (of_all index parts) (of_all values parts)))
        (map (λ p. by_segments (lengths p) (seg_replace_of (xs p) (index p) (values p))) parts) }
{}

/// The segments of one vector behind those of another, and merged by flags with them.
pub fn pairs_go_by_segments<P, X>()
    ensures append { (parts : List P) (a b : P → List X) (lengths others : P → List ℤ) (segments also : List ℕ) →
        lengths_of (of_all lengths parts) ≡ Ok segments → lengths_of (of_all others parts) ≡ Ok also →
        AsMany lengths others parts → AddUp lengths a parts → AddUp others b parts →
        IsMadeOf (by_segments (of_all lengths parts) (λ d. by_segments (of_all others parts)
        (λ e. append_segments_of (of_all a parts) d (of_all b parts) e)))
        (map (λ p. by_segments (lengths p) (λ d. by_segments (others p) (λ e. append_segments_of (a p) d (b p) e))) parts) }
    ensures merge { (parts : List P) (flags : P → List Bool) (xs ys : P → List X) (lengths trues falses : P → List ℤ)
        (segments also too : List ℕ) →
        lengths_of (of_all lengths parts) ≡ Ok segments → lengths_of (of_all trues parts) ≡ Ok also →
        lengths_of (of_all falses parts) ≡ Ok too → AsMany lengths trues parts → AsMany lengths falses parts →
        AddUp lengths flags parts → AddUp trues xs parts → AddUp falses ys parts →
        IsMadeOf (by_segments (of_all lengths parts) (λ d. by_segments (of_all trues parts)
        (λ e. by_segments (of_all falses parts)
        (λ g. seg_merge_of (of_all flags parts) d (of_all xs parts) e (of_all ys parts) g))))
        (map (λ p. by_segments (lengths p) (λ d. by_segments (trues p) (λ e. by_segments (falses p)
        (λ g. seg_merge_of (flags p) d (xs p) e (ys p) g)))) parts) }
{}

/// Slices by segments of one source, which each part has whole, and products of a sparse matrix by its rows with one vector.
pub fn rows_go_by_segments<P, X>()
    ensures gather { (source : List X) (parts : List P) (starts lengths : P → List ℤ) (segments : List ℕ) →
        lengths_of (of_all lengths parts) ≡ Ok segments → length (of_all starts parts) ≤ most_places →
        AsMany starts lengths parts →
        IsMadeOf (by_segments (of_all lengths parts)
        (λ d. in_limit (of_all starts parts) (gather_segments_of source (of_all starts parts) (of_all lengths parts))))
        (map (λ p. by_segments (lengths p) (λ d. in_limit (starts p) (gather_segments_of source (starts p) (lengths p)))) parts) }
    ensures product { (x : List ℤ) (parts : List P) (lengths columns values : P → List ℤ) (segments : List ℕ) →
        lengths_of (of_all lengths parts) ≡ Ok segments → length (of_all columns parts) ≤ most_places →
        AddUp lengths columns parts → AsMany values columns parts →
        IsMadeOf (by_segments (of_all lengths parts)
        (λ d. in_limit (of_all columns parts) (rows_product d (of_all columns parts) (of_all values parts) x)))
        (map (λ p. by_segments (lengths p) (λ d. in_limit (columns p) (rows_product d (columns p) (values p) x))) parts) }
    ensures checked_product { (x : List ℤ) (parts : List P) (lengths columns values : P → List ℤ) (segments : List ℕ) →
        lengths_of (of_all lengths parts) ≡ Ok segments → length (of_all columns parts) ≤ most_places →
        AddUp lengths columns parts → AsMany values columns parts →
        IsMadeOf (by_segments (of_all lengths parts)
        (λ d. in_limit (of_all columns parts) (checked_rows_product d (of_all columns parts) (of_all values parts) x)))
        (map (λ p. by_segments (lengths p) (λ d. in_limit (columns p) (checked_rows_product d (columns p) (values p) x))) parts) }
{}

/// Combining permutes by segments by sums that never wrap: in 64 bits, and such as have to fit 32 bits.
pub fn whole_sums_go_by_segments<P>()
    ensures exact { (parts : List P) (source index lengths others room : P → List ℤ) (segments also : List ℕ) →
        lengths_of (of_all lengths parts) ≡ Ok segments → lengths_of (of_all others parts) ≡ Ok also →
        length (of_all index parts) ≤ most_places → length (of_all room parts) ≤ most_places → AsMany lengths others parts →
        AddUp lengths source parts → AddUp lengths index parts → AddUp others room parts →
        IsMadeOf (by_segments (of_all lengths parts) (λ d. by_segments (of_all others parts)
        (λ e. in_limit (of_all index parts) (in_limit (of_all room parts)
        (seg_exact_sums_of (of_all source parts) (of_all index parts) d e (of_all room parts))))))
        (map (λ p. by_segments (lengths p) (λ d. by_segments (others p)
        (λ e. in_limit (index p) (in_limit (room p) (seg_exact_sums_of (source p) (index p) d e (room p)))))) parts) }
    ensures checked { (parts : List P) (source index lengths others room : P → List ℤ) (segments also : List ℕ) →
        lengths_of (of_all lengths parts) ≡ Ok segments → lengths_of (of_all others parts) ≡ Ok also →
        length (of_all index parts) ≤ most_places → length (of_all room parts) ≤ most_places → AsMany lengths others parts →
        AddUp lengths source parts → AddUp lengths index parts → AddUp others room parts →
        IsMadeOf (by_segments (of_all lengths parts) (λ d. by_segments (of_all others parts)
        (λ e. in_limit (of_all index parts) (in_limit (of_all room parts)
        (seg_checked_combine_of (of_all source parts) (of_all index parts) d e (of_all room parts))))))
        (map (λ p. by_segments (lengths p) (λ d. by_segments (others p)
        (λ e. in_limit (index p) (in_limit (room p) (seg_checked_combine_of (source p) (index p) d e (room p)))))) parts) }
{}
