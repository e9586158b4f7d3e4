//! Line of sight.

ghost use Rattle.std.specs.Prelude.{◌≡◌, ◌≤◌, [], ◌∷◌, codes, vec_len, IfOk};
ghost use Rattle.cvl_base.specs.Gives.{Gives};
ghost use Rattle.cvl_base.specs.Limits.{most_elements};
ghost use Rattle.cvl_base.specs.declared.value.Value.TheVariants as value;
ghost use Rattle.vector_handles.specs.declared.input.Input.TheVariants as input;
ghost use Rattle.recipes.specs.Recipes.{GivesBound};
ghost use Rattle.recipes.specs.Visibility.{AreExact, visible_of};

use crate::runs::{booleans_at, run_script};
use crate::scripts::LINE_OF_SIGHT;
use cvl_base::{Config, Ints, Memory, NoResources, Refused};
use std::thread::Threads;
use vector_handles::Input;

/// The one input of the script.
fn sight_inputs<A: Memory>(
    alloc: A,
    altitudes: Vec<i32, A>,
) -> Result<Vec<Input<A>, A>, NoResources>
    requires { vec_len altitudes ≤ most_elements }
    ensures { IfOk result (λ inputs. inputs.items ≡ input.Vector altitudes.items ∷ []) }
{
    let mut inputs = Vec::with_capacity(alloc, 1)?;
    inputs.push_reserved(Input::Vector(Ints::from_vec(altitudes)));
    Ok(inputs)
}

/// Whether an observer at place 0 sees each place, for 1 to 256 altitudes of 0 to 32767, by the script [`LINE_OF_SIGHT`].
///
/// A place is visible exactly if the slope to it is greater than that to each place between it and the observer; place 0 itself
/// is visible. Outside this range the script still has its meaning, but its slopes need not be ordered as the fractions are, so
/// that the answer may be wrong without a fault. There are at most 4,194,304 altitudes.
///
/// `IndexOutOfRange` at 0 if there are no altitudes. Source: Blelloch, Vector Models for Data-Parallel Computing, 1990.
pub fn line_of_sight<R: Threads + Sync, A: Memory>(
    rt: &R,
    alloc: A,
    config: Config,
    altitudes: Vec<i32, A>,
) -> Result<Vec<bool, A>, Refused>
    requires { vec_len altitudes ≤ most_elements }
    ensures visible { AreExact altitudes.items →
        Gives (λ v. v.items) result (Ok (visible_of altitudes.items)) }
    ensures meaning { GivesBound {A = A} (λ v. value.Booleans v.items) result LINE_OF_SIGHT.now
        (input.Vector altitudes.items ∷ []) (codes "v") }
{
    let inputs = sight_inputs(alloc, altitudes)?;
    let session = run_script(rt, alloc, config, LINE_OF_SIGHT, inputs)?;
    Ok(booleans_at(session, b"v")?)
}
