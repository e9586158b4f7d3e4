//! The law of runs of equal neighbours in parts, a function that takes and gives nothing and whose contract is the law.

ghost use Rattle.std.specs.Prelude.{◌≡◌, ◌+◌, ℕ, ℤ, Bool, true, List, [], ◌∷◌, ◌++◌, length};
ghost use Rattle.call_laws.specs.RunsInParts.{onto_last};
ghost use Rattle.cvl_base.specs.Lists.{joined};
ghost use Rattle.run_lengths.specs.Laws.{do_part, is_run};
ghost use Rattle.run_lengths.specs.Runs.{numbers_from, runs_in, runs_of};

/// Where two lists part, the runs of both are those of the first, then those of the second; so it is where a segment starts. The
/// elements at the front of a part that go on the last run before it make that run longer, and begin none. The numbers of runs
/// behind others count from where these end, the last run's with the elements that it has more.
pub fn runs_in_parts<T>()
    ensures begins { (differ : T → T → Bool) (xs ys : List T) → do_part differ xs ys ≡ true →
        runs_of differ (xs ++ ys) ≡ runs_of differ xs ++ runs_of differ ys }
    ensures goes_on { (differ : T → T → Bool) (xs : List T) (last : T) (more : List T) → is_run differ (last ∷ more) ≡ true →
        runs_of differ ((xs ++ last ∷ []) ++ more) ≡ onto_last (runs_of differ (xs ++ last ∷ [])) more }
    ensures segments { (differ : T → T → Bool) (before behind : List (List T)) →
        runs_in differ (before ++ behind) ≡ runs_in differ before ++ runs_in differ behind }
    ensures numbers { (number : ℕ → ℕ → ℤ) (place : ℕ) (runs others : List (List T)) →
        numbers_from number place (runs ++ others) ≡
        numbers_from number place runs ++ numbers_from number (place + length (joined runs)) others }
    ensures longer { (number : ℕ → ℕ → ℤ) (place : ℕ) (runs : List (List T)) (run more : List T) →
        numbers_from number place (onto_last (runs ++ run ∷ []) more) ≡
        numbers_from number place runs ++ number (place + length (joined runs)) (length run + length more) ∷ [] }
{}
