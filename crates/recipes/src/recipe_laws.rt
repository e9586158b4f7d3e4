//! What the definitions and the scripts of the recipes mean, as functions that take and give nothing: values worked out by hand,
//! and a law.

ghost use Rattle.std.specs.Prelude.{◌≡◌, ◌≤◌, ◌<◌, ◌↔◌, ◌<ℤ◌, ◌*ℤ◌, ℕ, ℤ, List, negsuc, pos, true, false, IsTrue, [], ◌∷◌, codes};
ghost use Rattle.cvl_base.specs.declared.fault.FaultNo.TheVariants as no;
ghost use Rattle.cvl_base.specs.declared.value.Value.TheVariants.{Booleans, Integers};
ghost use Rattle.cvl_base.specs.Faults.{fault, fault_at};
ghost use Rattle.vector_handles.specs.declared.input.Input.TheVariants.{Vector};
ghost use Rattle.sparse_products.specs.Products.{product_of};
ghost use Rattle.sparse_products.specs.Answers.{sparse_product_of};
ghost use Rattle.recipes.specs.Recipes.{as_bound, bound_by};
ghost use Rattle.recipes.specs.Visibility.{is_visible, rise, visible_of};

use crate::scripts::{LINE_OF_SIGHT, SPARSE_MATVEC};

/// Products: a row without entries has 0, and a sum is wrapped once.
pub fn product_values()
    ensures rows { product_of (pos 2 ∷ pos 0 ∷ pos 2 ∷ []) (pos 0 ∷ pos 2 ∷ pos 1 ∷ pos 2 ∷ [])
        (pos 2 ∷ pos 1 ∷ pos 3 ∷ pos 4 ∷ []) (pos 1 ∷ pos 2 ∷ pos 3 ∷ [])
        ≡ pos 5 ∷ pos 0 ∷ pos 18 ∷ [] }
    ensures wrapped { product_of (pos 2 ∷ []) (pos 0 ∷ pos 0 ∷ []) (pos 2147483647 ∷ pos 1 ∷ []) (pos 1 ∷ [])
        ≡ negsuc 2147483647 ∷ [] }
{}

/// Visible places: places 0 and 1 always are; a place under a hill or on an equal slope is not.
pub fn visibility_values()
    ensures hill { visible_of (pos 0 ∷ pos 1 ∷ pos 1 ∷ pos 6 ∷ pos 2 ∷ []) ≡ true ∷ true ∷ false ∷ true ∷ false ∷ [] }
    ensures equal_slopes { visible_of (pos 0 ∷ pos 1 ∷ pos 2 ∷ []) ≡ true ∷ true ∷ false ∷ [] }
    ensures below { visible_of (pos 5 ∷ pos 4 ∷ pos 4 ∷ []) ≡ true ∷ true ∷ true ∷ [] }
    ensures rising { visible_of (pos 0 ∷ pos 0 ∷ pos 1 ∷ pos 2 ∷ []) ≡ true ∷ true ∷ true ∷ true ∷ [] }
{}

/// A place is visible exactly if the slope to it is greater than that to each place from 1 on before it.
pub fn visibility_law()
    ensures { (altitudes : List ℤ) (i : ℕ) → IsTrue (is_visible altitudes i) ↔
        ((j : ℕ) → 1 ≤ j → j < i → (rise altitudes j *ℤ pos i) <ℤ (rise altitudes i *ℤ pos j)) }
{}

/// What the script of the sparse product binds to `y`, and the faults of each line that can have one.
pub fn product_script_values()
    ensures rows { bound_by {A = Unit {0}} SPARSE_MATVEC.now
        (Vector (pos 2 ∷ pos 0 ∷ pos 2 ∷ []) ∷ Vector (pos 0 ∷ pos 2 ∷ pos 1 ∷ pos 2 ∷ []) ∷
        Vector (pos 2 ∷ pos 1 ∷ pos 3 ∷ pos 4 ∷ []) ∷ Vector (pos 1 ∷ pos 2 ∷ pos 3 ∷ []) ∷ []) (codes "y")
        ≡ Ok (Some (Integers (pos 5 ∷ pos 0 ∷ pos 18 ∷ []))) }
    ensures negative_length { bound_by {A = Unit {0}} SPARSE_MATVEC.now
        (Vector (negsuc 0 ∷ []) ∷ Vector [] ∷ Vector [] ∷ Vector [] ∷ []) (codes "y")
        ≡ Err (fault_at no.NegativeLength 0) }
    ensures column_outside { bound_by {A = Unit {0}} SPARSE_MATVEC.now
        (Vector (pos 2 ∷ []) ∷ Vector (pos 0 ∷ pos 3 ∷ []) ∷ Vector (pos 1 ∷ pos 1 ∷ []) ∷
        Vector (pos 1 ∷ pos 2 ∷ pos 3 ∷ []) ∷ []) (codes "y")
        ≡ Err (fault_at no.IndexOutOfRange 1) }
    ensures too_few_values { bound_by {A = Unit {0}} SPARSE_MATVEC.now
        (Vector (pos 2 ∷ []) ∷ Vector (pos 0 ∷ pos 0 ∷ []) ∷ Vector (pos 1 ∷ []) ∷ Vector (pos 1 ∷ []) ∷ []) (codes "y")
        ≡ Err (fault no.LengthMismatch) }
    ensures too_few_entries { bound_by {A = Unit {0}} SPARSE_MATVEC.now
        (Vector (pos 2 ∷ []) ∷ Vector (pos 0 ∷ []) ∷ Vector (pos 1 ∷ []) ∷ Vector (pos 1 ∷ []) ∷ []) (codes "y")
        ≡ Err (fault no.LengthMismatch) }
{}

/// The script of the sparse product binds `y` to the sparse product of any inputs, or stops at its fault.
pub fn product_script_law()
    ensures { (lens cols vals x : List ℤ) → bound_by {A = Unit {0}} SPARSE_MATVEC.now
        (Vector lens ∷ Vector cols ∷ Vector vals ∷ Vector x ∷ []) (codes "y")
        ≡ as_bound (sparse_product_of lens cols vals x) }
{}

/// What the script of line of sight binds to `v`: it distinguishes slopes that differ by less than 1, of two equal slopes the
/// farther place isn't visible, and without altitudes there is no observer.
pub fn sight_script_values()
    ensures small_slopes { bound_by {A = Unit {0}} LINE_OF_SIGHT.now
        (Vector (pos 0 ∷ pos 0 ∷ pos 1 ∷ pos 2 ∷ []) ∷ []) (codes "v")
        ≡ Ok (Some (Booleans (true ∷ true ∷ true ∷ true ∷ []))) }
    ensures equal_slopes { bound_by {A = Unit {0}} LINE_OF_SIGHT.now
        (Vector (pos 0 ∷ pos 1 ∷ pos 2 ∷ []) ∷ []) (codes "v")
        ≡ Ok (Some (Booleans (true ∷ true ∷ false ∷ []))) }
    ensures no_observer { bound_by {A = Unit {0}} LINE_OF_SIGHT.now (Vector [] ∷ []) (codes "v")
        ≡ Err (fault_at no.IndexOutOfRange 0) }
{}
