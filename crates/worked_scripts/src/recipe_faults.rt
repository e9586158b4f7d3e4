//! The recipes' scripts, as the shell runs them.

ghost use Rattle.std.specs.Prelude.{◌≡◌, ℕ, List};
ghost use Rattle.vector_handles.specs.declared.input.Input.{Input};
ghost use Rattle.script_runs.specs.Meaning.{meaning, stop_fault};
ghost use Rattle.recipes.specs.Recipes.{bound_by};
ghost use Rattle.worked_scripts.specs.Faults.{fault_of};

use cvl_base::Memory;

/// A recipe reports the same fault of its script as the meaning of the script, for all scripts and all inputs.
pub fn recipe_fault_law<A: Memory>()
    ensures { (script : List ℕ) (inputs : List (Input A)) (name : List ℕ) →
        fault_of (bound_by script inputs name) ≡ stop_fault (meaning script inputs) }
{}
