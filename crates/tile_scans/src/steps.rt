//! Runs that are written some places at a time.

ghost use Rattle.std.specs.Prelude.{◌+◌, ◌<◌, ◌≤◌, List, length};
ghost use Rattle.tile_scans.specs.Written.{IsWrittenOn, next_of};

use fresh::{Run, Writer};

/// Items written in steps. Its meaning is the list of all of them.
pub(crate) trait Steps<T> {
    ghost whole: { Self → List T };

    /// Writes the run's next place, and those after it as far as one step goes.
    fn write_on(&self, run: Run<T>) -> Run<T>
        requires some { 0 < run.room }
        requires within { next_of run + run.room ≤ length (whole self.now) }
        ensures { IsWrittenOn (whole self.now) run result };
}

/// What is written in steps, as a writer of whole runs.
#[derive(Drop)]
pub(crate) struct InSteps<'a, S> {
    pub(crate) steps: &'a S,
}

impl<'a, T, S: Steps<T>> Writer<T> for InSteps<'a, S> {
    ghost use Rattle.std.specs.Prelude.{◌≡◌, []};
    ghost use Rattle.fresh.specs.Parts.{part};
    ghost use Rattle.fresh.specs.Places.{stretch};

    ghost whole = { λ w. S.whole w.steps.now };

    fn write(&self, run: Run<T>) -> Run<T>
        requires empty { run.items ≡ [] }
        requires within { run.first + run.room ≤ length (S.whole self.now.steps.now) }
        ensures { result ≡ stretch run.block run.first (part (S.whole self.now.steps.now) run.first run.room) 0 }
    {
        let mut run = run;
        while run.room() > 0 {
            run = self.steps.write_on(run);
        }
        run
    }
}
