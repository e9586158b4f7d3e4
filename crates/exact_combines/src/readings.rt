//! Integers of 32 bits read as sums, and that sums have 64 bits, which a proof knows only of those that are read.

ghost use Rattle.std.specs.Prelude.{◌≡◌, true};
ghost use Rattle.std.specs.List.{AllPass};
ghost use Rattle.long_sums.specs.LongSums.{is_long};

use scan_walks::Reading;

/// The rule by which an integer is read as a sum.
pub struct Widened;

impl Reading<i32, i64> for Widened {
    ghost item = { λ x. x };

    fn item(x: i32) -> i64 {
        i64::from(x)
    }
}

/// Each sum of a room has 64 bits. The contract names the fact, which a proof knows only of a sum that is read. The loop does
/// nothing with what it reads, so that the compiler leaves it out.
pub(crate) fn know_longs(sums: &[i64])
    ensures { AllPass is_long sums.now }
{
    for x in sums {
        know_long(x);
    }
}

fn know_long(x: &i64)
    ensures { is_long x.now ≡ true }
{
    let _value = *x;
}
