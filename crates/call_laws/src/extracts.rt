//! Laws of single elements, place by place, each a function that takes and gives nothing and whose contract is the law.

ghost use Rattle.std.specs.Prelude.{◌≡◌, ◌≢◌, ◌↔◌, ◌≤◌, ◌<◌, ◌+ℤ◌, ◌-ℤ◌, ◌*ℤ◌, ℕ, ℤ, pos, negsuc, Some, List, ◌++◌, length};
ghost use Rattle.std.specs.Prelude.{slice_get, IsOk};
ghost use Rattle.call_laws.specs.InParts.{replaced_in_two};
ghost use Rattle.cvl_base.specs.declared.fault.FaultNo.TheVariants as no;
ghost use Rattle.cvl_base.specs.Distributes.{distribute_of, index_of};
ghost use Rattle.cvl_base.specs.Extracts.{extract_of, replace_of};
ghost use Rattle.cvl_base.specs.Faults.{fault_at};
ghost use Rattle.cvl_base.specs.Integers.{wrap};
ghost use Rattle.cvl_base.specs.Limits.{most_elements};

/// An extract gives the element at the index, and has one exactly if the index is a place of the vector.
pub fn extract_law<T>()
    ensures meaning { (xs : List T) (k : ℕ) (x : T) → (extract_of xs (pos k) ≡ Ok x) ↔ (slice_get xs k ≡ Some x) }
    ensures exists { (xs : List T) (k : ℕ) → k < length xs → IsOk (extract_of xs (pos k)) }
    ensures past_end { (xs : List T) (k : ℕ) → length xs ≤ k → extract_of xs (pos k) ≡ Err (fault_at no.IndexOutOfRange 0) }
    ensures negative { (xs : List T) (k : ℕ) → extract_of xs (negsuc k) ≡ Err (fault_at no.IndexOutOfRange 0) }
{}

/// A replace gives the one vector of the same length that has the value at the index and the old element at each other place, and
/// has one exactly if the index is a place of the vector. An extract at the index then gives the value.
pub fn replace_law<T>()
    ensures meaning { (xs : List T) (k : ℕ) (x : T) (result : List T) →
        (replace_of xs (pos k) x ≡ Ok result)
        ↔ ((length result ≡ length xs) × (slice_get result k ≡ Some x)
        × ((j : ℕ) → j ≢ k → slice_get result j ≡ slice_get xs j)) }
    ensures exists { (xs : List T) (k : ℕ) (x : T) → k < length xs → IsOk (replace_of xs (pos k) x) }
    ensures past_end { (xs : List T) (k : ℕ) (x : T) → length xs ≤ k
        → replace_of xs (pos k) x ≡ Err (fault_at no.IndexOutOfRange 0) }
    ensures negative { (xs : List T) (k : ℕ) (x : T) → replace_of xs (negsuc k) x ≡ Err (fault_at no.IndexOutOfRange 0) }
    ensures read_back { (xs : List T) (index : ℤ) (x : T) (result : List T) → replace_of xs index x ≡ Ok result →
        extract_of result index ≡ Ok x }
{}

/// A replace on a copy cut in two is the replace on the part that has the index, beside the other part as it was. In the second
/// part the index is less by the first part's length. The fault, 10 at 0, comes exactly if neither part has the index.
pub fn replace_in_parts<T>()
    ensures copy { (xs ys : List T) (index : ℤ) (x : T) →
        replace_of (xs ++ ys) index x
        ≡ replaced_in_two xs ys (replace_of xs index x) (replace_of ys (index -ℤ pos (length xs)) x) }
    ensures in_neither { (xs ys : List T) (index : ℤ) (x : T) →
        (replace_of (xs ++ ys) index x ≡ Err (fault_at no.IndexOutOfRange 0))
        ↔ ((replace_of xs index x ≡ Err (fault_at no.IndexOutOfRange 0))
        × (replace_of ys (index -ℤ pos (length xs)) x ≡ Err (fault_at no.IndexOutOfRange 0))) }
{}

/// A distribute gives the one vector, as long as the count, with the value at each place; an index the one with its start
/// and k strides, wrapped, at each place k.
pub fn each_place_law<T>()
    ensures distribute { (value : T) (n : ℕ) (result : List T) → n ≤ most_elements →
        (distribute_of value (pos n) ≡ Ok result)
        ↔ ((length result ≡ n) × ((k : ℕ) → k < n → slice_get result k ≡ Some value)) }
    ensures index { (init stride : ℤ) (n : ℕ) (result : List ℤ) → n ≤ most_elements →
        (index_of init stride (pos n) ≡ Ok result)
        ↔ ((length result ≡ n) × ((k : ℕ) → k < n → slice_get result k ≡ Some (wrap (init +ℤ pos k *ℤ stride)))) }
{}
