//! Laws of permutes by the owners of their places, each a function that takes and gives nothing and whose contract is the law.

ghost use Rattle.std.specs.Prelude.{◌≡◌, ℕ, ℤ, pos, Bool, true, Option, List, count_by, find, option_map};
ghost use Rattle.std.specs.List.{filter, list_any};
ghost use Rattle.call_laws.specs.Owned.{HasPlace, HaveOwners, agreed_fault, owned_destinations, owned_pairs, owned_sends};
ghost use Rattle.combining_permutes.specs.CombiningPermutes.{names, sent_there};
ghost use Rattle.cvl_base.specs.Permutes.{first_fault, is_destination, sent_to, wrongs};

/// The owner of a place finds in what it is sent, in the order of senders, the element that the whole permute sends to the place,
/// and it finds a repeated index exactly if the whole has it at an earlier place.
pub fn permute_by_owners<T>()
    ensures sent { (owns : Option ℤ → Bool) (source : List T) (destinations : List (Option ℤ)) (d : ℕ) → HasPlace owns (pos d) →
        option_map (λ p. p.1) (find (λ p. is_destination (pos d) p.0) (owned_pairs owns source destinations))
        ≡ sent_to source destinations d }
    ensures repeated { (owns : Option ℤ → Bool) (earlier : List (Option ℤ)) (d : ℤ) → HasPlace owns d →
        list_any (is_destination d) (owned_destinations owns earlier) ≡ list_any (is_destination d) earlier }
{}

/// The fault of a permute is the one at the least place, of those that senders find out of range and owners find repeated, if
/// each place of the result has an owner; there is none if none of them finds any.
pub fn fault_by_owners()
    ensures { (owners : List (Option ℤ → Bool)) (m : ℕ) (destinations : List (Option ℤ)) → HaveOwners owners m →
        first_fault 0 (wrongs m destinations) ≡ agreed_fault owners m destinations }
{}

/// The owner of a place finds in what it is sent all elements that the whole sends to the place, in the order of senders, so that
/// it joins and counts the same.
pub fn combining_by_owners<T>()
    ensures joined { (owns : ℤ → Bool) (sends : List (ℤ × T)) (d : ℕ) → ((i : ℤ) → names d i ≡ true → owns i ≡ true) →
        sent_there (owned_sends owns sends) d ≡ sent_there sends d }
    ensures counted { (owns : ℤ → Bool) (index : List ℤ) (d : ℕ) → ((i : ℤ) → names d i ≡ true → owns i ≡ true) →
        count_by (names d) (filter owns index) ≡ count_by (names d) index }
{}
