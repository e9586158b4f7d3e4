//! Whether a whole number fits 32 bits; and that integers do, which a proof knows only of those that are read.

ghost use Rattle.std.specs.Prelude.{◌≡◌, true};
ghost use Rattle.std.specs.List.{AllPass};
ghost use Rattle.cvl_base.specs.CheckedSums.{fitting};
ghost use Rattle.cvl_base.specs.ItemWords.{is_number};

/// The number, if it fits 32 bits.
pub fn fitting(number: &i64) -> Option<i32>
    ensures { result ≡ fitting number.now }
{
    i32::try_from(*number).ok()
}

/// Each integer of a vector fits 32 bits. The contract names the fact, which a proof knows only of an integer that is read. The
/// loop does nothing with what it reads, so that the compiler leaves it out.
pub fn know_numbers(a: &[i32])
    ensures { AllPass is_number a.now }
{
    for x in a {
        know_number(x);
    }
}

fn know_number(x: &i32)
    ensures { is_number x.now ≡ true }
{
    let _value = *x;
}
