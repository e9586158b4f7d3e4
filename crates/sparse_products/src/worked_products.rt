//! What the definitions of products mean, in a function that takes and gives nothing: values worked out by hand.

ghost use Rattle.std.specs.Prelude.{◌≡◌, negsuc, pos, [], ◌∷◌, Ok, Err};
ghost use Rattle.cvl_base.specs.declared.fault.FaultNo.TheVariants as no;
ghost use Rattle.cvl_base.specs.Faults.{fault, fault_at};
ghost use Rattle.sparse_products.specs.Answers.{checked_sparse_product_of, row_lengths_of};
ghost use Rattle.sparse_products.specs.Answers.{sparse_product_by_offsets_of, sparse_product_of};

/// A row without entries has 0; a sum wraps, or is a fault; of several faults the first is reported; offsets are lengths.
pub fn product_values()
    ensures rows { sparse_product_of (pos 2 ∷ pos 0 ∷ pos 2 ∷ []) (pos 0 ∷ pos 2 ∷ pos 1 ∷ pos 2 ∷ [])
        (pos 2 ∷ pos 1 ∷ pos 3 ∷ pos 4 ∷ []) (pos 1 ∷ pos 2 ∷ pos 3 ∷ [])
        ≡ Ok (pos 5 ∷ pos 0 ∷ pos 18 ∷ []) }
    ensures wrapped { sparse_product_of (pos 2 ∷ []) (pos 0 ∷ pos 0 ∷ []) (pos 2147483647 ∷ pos 1 ∷ []) (pos 1 ∷ [])
        ≡ Ok (negsuc 2147483647 ∷ []) }
    ensures overflow { checked_sparse_product_of (pos 2 ∷ []) (pos 0 ∷ pos 0 ∷ []) (pos 2147483647 ∷ pos 1 ∷ []) (pos 1 ∷ [])
        ≡ Err (fault_at no.Overflow 0) }
    ensures exact { checked_sparse_product_of (pos 3 ∷ []) (pos 0 ∷ pos 0 ∷ pos 0 ∷ [])
        (pos 2147483647 ∷ pos 1 ∷ negsuc 0 ∷ []) (pos 1 ∷ [])
        ≡ Ok (pos 2147483647 ∷ []) }
    ensures column_outside { sparse_product_of (pos 2 ∷ []) (pos 0 ∷ pos 3 ∷ []) (pos 1 ∷ pos 1 ∷ [])
        (pos 1 ∷ pos 2 ∷ pos 3 ∷ []) ≡ Err (fault_at no.IndexOutOfRange 1) }
    ensures negative_length { sparse_product_of (negsuc 0 ∷ []) (pos 7 ∷ []) [] [] ≡ Err (fault_at no.NegativeLength 0) }
    ensures column_before_values { sparse_product_of (pos 2 ∷ []) (pos 0 ∷ pos 1 ∷ []) (pos 1 ∷ []) (pos 1 ∷ [])
        ≡ Err (fault_at no.IndexOutOfRange 1) }
    ensures too_few_values { sparse_product_of (pos 2 ∷ []) (pos 0 ∷ pos 0 ∷ []) (pos 1 ∷ []) (pos 1 ∷ [])
        ≡ Err (fault no.LengthMismatch) }
    ensures column_before_overflow { checked_sparse_product_of (pos 2 ∷ pos 1 ∷ []) (pos 0 ∷ pos 0 ∷ pos 1 ∷ [])
        (pos 2147483647 ∷ pos 1 ∷ pos 1 ∷ []) (pos 1 ∷ []) ≡ Err (fault_at no.IndexOutOfRange 2) }
    ensures offsets { row_lengths_of (pos 0 ∷ pos 2 ∷ pos 2 ∷ pos 4 ∷ []) ≡ Ok (pos 2 ∷ pos 0 ∷ pos 2 ∷ []) }
    ensures first_offset { row_lengths_of (pos 1 ∷ pos 0 ∷ []) ≡ Err (fault no.LengthMismatch) }
    ensures descending { row_lengths_of (pos 0 ∷ pos 3 ∷ pos 2 ∷ []) ≡ Err (fault_at no.NegativeLength 1) }
    ensures last_offset { sparse_product_by_offsets_of (pos 0 ∷ pos 2 ∷ []) (pos 0 ∷ []) (pos 1 ∷ []) (pos 1 ∷ [])
        ≡ Err (fault no.LengthMismatch) }
{}
