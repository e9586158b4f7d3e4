//! The copy of a vector.

ghost use Rattle.std.specs.Prelude.{◌≡◌, ◌+◌, ◌≤◌, [], length};
ghost use Rattle.fresh.specs.Parts.{part};
ghost use Rattle.fresh.specs.Places.{stretch};

use fresh::{Run, Writer};

/// Writes the elements of a vector as they are.
#[derive(Drop)]
pub struct Copied<'a, X> {
    /// The elements.
    pub elements: &'a [X],
}

impl<'a, X: Copy> Writer<X> for Copied<'a, X> {
    ghost whole = { λ w. w.elements.now };

    fn write(&self, run: Run<X>) -> Run<X>
        requires empty { run.items ≡ [] }
        requires within { run.first + run.room ≤ length self.now.elements.now }
        ensures { result ≡ stretch run.block run.first (part self.now.elements.now run.first run.room) 0 }
    {
        run.fill_by(
            self.elements,
            |x: X| -> X
                ensures { result ≡ x }
            { x },
        )
    }
}
