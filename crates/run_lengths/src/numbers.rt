//! What is written of a run: its length, or the place where it begins.

ghost use Rattle.std.specs.Prelude.{◌≡◌, ◌+◌, ◌≤◌, ℕ, ℤ};
ghost use Rattle.cvl_base.specs.Limits.{most_places};
ghost use Rattle.run_lengths.specs.Runs.{its_length, its_start};

/// A number of a run.
pub trait RunNumber {
    ghost number: { ℕ → ℕ → ℤ };

    /// The number of the run that begins at place `first` and has `length` elements.
    fn of(first: usize, length: usize) -> i32
        requires { first + length ≤ most_places }
        ensures { result ≡ number first length };
}

/// How many elements the run has.
pub struct Length;

impl RunNumber for Length {
    ghost number = { its_length };

    #[inline]
    fn of(_first: usize, length: usize) -> i32 {
        length as i32
    }
}

/// The place where it begins.
pub struct Start;

impl RunNumber for Start {
    ghost number = { its_start };

    #[inline]
    fn of(first: usize, _length: usize) -> i32 {
        first as i32
    }
}
