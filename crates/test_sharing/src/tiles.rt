//! Tiles for tests.

ghost use Rattle.std.specs.Prelude.{◌≡◌, ◌≤◌, false, true, length, map};
ghost use Rattle.std.specs.List.{list_all};
ghost use Rattle.cvl_base.specs.ItemWords.{is_number};
ghost use Rattle.cvl_base.specs.Limits.{most_elements};

use crate::counter::Counter;
use boards::Tiles;
use cvl_base::monoids::Add;
use scan_walks::know_numbers;

/// Tiles of one number each, in which no segment starts. A counter counts how often one of them is added up, and may hold the
/// first worker that adds up a tile, inside the board's call that asks for the sum.
#[derive(Drop)]
pub struct CountedTiles<'a> {
    numbers: &'a [i32],
    counter: &'a Counter,
    ghost few: { length numbers.now ≤ most_elements },
    ghost items: { list_all is_number numbers.now ≡ true },
}

impl<'a> CountedTiles<'a> {
    /// Tiles of these numbers, at most 4,194,304.
    pub fn new(numbers: &'a [i32], counter: &'a Counter) -> CountedTiles<'a>
        requires { length numbers.now ≤ most_elements }
        ensures { result.numbers.now ≡ numbers.now }
    {
        know_numbers(numbers);
        CountedTiles { numbers, counter }
    }
}

impl Tiles for CountedTiles<'_> {
    type M = Add;

    ghost sums = { λ tiles. map (λ x. (false, x)) tiles.numbers.now };

    fn count(&self) -> u32 {
        self.numbers.len() as u32
    }

    fn sum(&self, t: u32) -> (bool, i32) {
        self.counter.add();
        (false, self.numbers[t as usize])
    }
}
