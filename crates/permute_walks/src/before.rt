//! What stands in the places of a permute's result before elements are sent there.

ghost use Rattle.std.specs.Prelude.{◌≡◌, ◌+◌, ◌≤◌, [], length};
ghost use Rattle.fresh.specs.Parts.{part};
ghost use Rattle.fresh.specs.Places.{stretch};
ghost use Rattle.permute_walks.specs.Before.{values_of};

use fresh::{Copies, Run, Writer};

/// What stands in the places of a permute's result before elements are sent there: a value for each place.
#[derive(Clone, Copy)]
pub enum Before<'a, T> {
    /// Each place is sent an element, so that these do not matter.
    Any(&'a [T]),
    /// Each stays if none is sent there.
    Defaults(&'a [T]),
}

impl<'a, T> Before<'a, T> {
    /// The value of each place.
    pub fn values(&self) -> &'a [T]
        ensures { result.now ≡ values_of self.now }
    {
        match *self {
            Before::Any(values) => values,
            Before::Defaults(values) => values,
        }
    }
}

impl<'a, T: Copy> Writer<T> for Before<'a, T> {
    ghost use Rattle.permute_walks.specs.Before.{written_of};

    ghost whole = { λ b. written_of b };

    fn write(&self, run: Run<T>) -> Run<T>
        requires empty { run.items ≡ [] }
        requires within { run.first + run.room ≤ length (written_of self.now) }
        ensures { result ≡ stretch run.block run.first (part (written_of self.now) run.first run.room) 0 }
    {
        match *self {
            Before::Any(values) => match values.first() {
                Some(first) => {
                    let copies = Copies {
                        item: *first,
                        count: values.len(),
                    };
                    copies.write(run)
                }
                None => run,
            },
            Before::Defaults(values) => run.fill_by(
                values,
                |x: T| -> T
                    ensures { result ≡ x }
                { x },
            ),
        }
    }
}
