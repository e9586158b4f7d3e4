//! The two walks of a back permute into a room, which is written only if no index is outside. The first checks all indices, so
//! that the second has an element for each.

ghost use Rattle.std.specs.Prelude.{◌≡◌, ◌+◌, ◌-◌, ◌≤◌, ◌++◌, [], length};
ghost use Rattle.fresh.specs.Parts.{part};
ghost use Rattle.fresh.specs.Places.{stretch};
ghost use Rattle.cvl_base.specs.Limits.{most_places};
ghost use Rattle.permute_walks.specs.Indices.{AreInside, elements_at, first_outside};
ghost use Rattle.permute_walks.specs.Senders.{fault_told};

use crate::index_counts::count_outside;
use cvl_base::{Fault, FaultNo, place_among};
use fresh::{Run, Writer};

/// From this many indices on they are counted before they are checked in turn.
const LONG: usize = 32;

/// `IndexOutOfRange` at the first place whose index is none of `places` places. The first index stands at place `first`.
#[inline]
fn check_each(index: &[i32], places: usize, first: usize) -> Result<(), Fault>
    requires { first + length index.now ≤ most_places }
    ensures { fault_told result ≡ first_outside first places index.now }
{
    for (k, i) in index.iter().enumerate() {
        let Some(_) = place_among(places, i) else {
            return Err(Fault::at(FaultNo::IndexOutOfRange, (first + k) as u32));
        };
    }
    Ok(())
}

/// The first walk: `IndexOutOfRange` at the first place whose index is none of `places` places of the source. The first index
/// stands at place `first`.
// Inlined for a short segment, whose indices are each checked here.
#[inline]
#[tactic(auto, using(crate::proofs::Outside::none_outside))]
pub fn check_places_alone(index: &[i32], places: usize, first: usize) -> Result<(), Fault>
    requires { first + length index.now ≤ most_places }
    ensures { fault_told result ≡ first_outside first places index.now }
{
    if index.len() >= LONG && count_outside(index, places) == 0 {
        return Ok(());
    }
    check_each(index, places, first)
}

/// The second walk over some indices, each of which is a place of the source: writes the elements at them into the next
/// places of a run.
// The run is passed by value, so that its numbers stay in registers while it grows.
#[inline(never)]
pub fn write_elements_at<T: Copy>(run: Run<T>, source: &[T], index: &[i32]) -> Run<T>
    requires room { length index.now ≤ run.room }
    requires inside { AreInside (length source.now) index.now }
    ensures { result ≡ stretch run.block run.first
        (run.items ++ elements_at source.now index.now) (run.room - length index.now) }
{
    let mut run = run;
    for i in index {
        run.push(source[*i as usize]);
    }
    run
}

/// Writes the element at each index: the second walk of a flat back permute.
#[derive(Drop)]
pub struct ElementsAt<'a, T> {
    /// The elements.
    pub source: &'a [T],
    /// The index of each place, which is a place of the source.
    pub index: &'a [i32],
    ghost inside: { AreInside (length source.now) index.now },
}

impl<'a, T: Copy> Writer<T> for ElementsAt<'a, T> {
    ghost use Rattle.permute_walks.specs.Indices.{elements_at};

    ghost whole = { λ w. elements_at w.source.now w.index.now };

    fn write(&self, run: Run<T>) -> Run<T>
        requires empty { run.items ≡ [] }
        requires within { run.first + run.room ≤ length (elements_at self.now.source.now self.now.index.now) }
        ensures { result ≡ stretch run.block run.first
            (part (elements_at self.now.source.now self.now.index.now) run.first run.room) 0 }
    {
        let (_, rest) = self.index.split_at(run.next_place());
        let (index, _) = rest.split_at(run.room());
        write_elements_at(run, self.source, index)
    }
}
