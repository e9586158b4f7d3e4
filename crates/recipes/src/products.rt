//! The product of a sparse matrix with a vector.

ghost use Rattle.std.specs.Prelude.{◌≡◌, ◌≤◌, [], ◌∷◌, codes, vec_len, IfOk};
ghost use Rattle.cvl_base.specs.Gives.{Gives};
ghost use Rattle.cvl_base.specs.Limits.{most_elements};
ghost use Rattle.cvl_base.specs.declared.value.Value.TheVariants as value;
ghost use Rattle.vector_handles.specs.declared.input.Input.TheVariants as input;
ghost use Rattle.sparse_products.specs.Products.{IsMatrix, product_of};
ghost use Rattle.sparse_products.specs.Answers.{sparse_product_of};
ghost use Rattle.recipes.specs.Recipes.{GivesBound};

use crate::runs::{integers_at, run_script};
use crate::scripts::SPARSE_MATVEC;
use cvl_base::{Config, Ints, Memory, NoResources, Refused};
use std::thread::Threads;
use vector_handles::Input;

/// The inputs of the script, in their order.
fn matrix_inputs<A: Memory>(
    alloc: A,
    lens: Vec<i32, A>,
    cols: Vec<i32, A>,
    vals: Vec<i32, A>,
    x: Vec<i32, A>,
) -> Result<Vec<Input<A>, A>, NoResources>
    requires lens { vec_len lens ≤ most_elements }
    requires cols { vec_len cols ≤ most_elements }
    requires vals { vec_len vals ≤ most_elements }
    requires x { vec_len x ≤ most_elements }
    ensures { IfOk result (λ inputs. inputs.items ≡
        input.Vector lens.items ∷ input.Vector cols.items ∷ input.Vector vals.items ∷ input.Vector x.items ∷ []) }
{
    let mut inputs = Vec::with_capacity(alloc, 4)?;
    inputs.push_reserved(Input::Vector(Ints::from_vec(lens)));
    inputs.push_reserved(Input::Vector(Ints::from_vec(cols)));
    inputs.push_reserved(Input::Vector(Ints::from_vec(vals)));
    inputs.push_reserved(Input::Vector(Ints::from_vec(x)));
    Ok(inputs)
}

/// The product of a sparse matrix with the vector `x`, by the script [`SPARSE_MATVEC`].
///
/// Row r has `lens[r]` entries; `cols` and `vals` are the columns and the values of all entries, row after row. The product has
/// one element for each row, 0 if it has no entries. Sums and products wrap to 32 bits. Each vector has at most 4,194,304
/// elements.
///
/// The faults are those of the script's lines, in order, without the line: `NegativeLength` at the first negative length,
/// `TooLong` if the lengths add up to more than 4,194,304, `IndexOutOfRange` at the first entry whose column is no place of `x`,
/// `LengthMismatch` if columns and values differ in number, or the lengths don't add up to it. Source: Blelloch, Vector Models
/// for Data-Parallel Computing, 1990.
pub fn sparse_matvec<R: Threads + Sync, A: Memory>(
    rt: &R,
    alloc: A,
    config: Config,
    lens: Vec<i32, A>,
    cols: Vec<i32, A>,
    vals: Vec<i32, A>,
    x: Vec<i32, A>,
) -> Result<Vec<i32, A>, Refused>
    requires lens { vec_len lens ≤ most_elements }
    requires cols { vec_len cols ≤ most_elements }
    requires vals { vec_len vals ≤ most_elements }
    requires x { vec_len x ≤ most_elements }
    ensures product { IsMatrix lens.items cols.items vals.items x.items →
        Gives (λ y. y.items) result (Ok (product_of lens.items cols.items vals.items x.items)) }
    ensures exact { Gives (λ y. y.items) result (sparse_product_of lens.items cols.items vals.items x.items) }
    ensures meaning { GivesBound {A = A} (λ y. value.Integers y.items) result SPARSE_MATVEC.now
        (input.Vector lens.items ∷ input.Vector cols.items ∷ input.Vector vals.items ∷ input.Vector x.items ∷ [])
        (codes "y") }
{
    let inputs = matrix_inputs(alloc, lens, cols, vals, x)?;
    let session = run_script(rt, alloc, config, SPARSE_MATVEC, inputs)?;
    Ok(integers_at(session, b"y")?)
}
