//! The law of runs, a function that takes and gives nothing and whose contract is the law.

ghost use Rattle.std.specs.Prelude.{Bool, List};
ghost use Rattle.run_lengths.specs.Laws.{AreRuns};
ghost use Rattle.run_lengths.specs.Runs.{runs_of};

/// The runs of a list are, one after another, that list. In each no two neighbours differ, and where one ends and the next begins
/// they do.
pub fn run_law<T>()
    ensures { (differ : T → T → Bool) (xs : List T) → AreRuns differ xs (runs_of differ xs) }
{}
