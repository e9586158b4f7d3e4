//! Elements of vectors, which have texts.

ghost use Rattle.std.specs.Prelude.{◌≡◌, ◌+◌, ◌≤◌, ◌++◌, length, drop};
ghost use Rattle.std.specs.Fmt.{decimal};

/// The most bytes of an element's text, that of `-2147483648`.
pub const MOST_TEXT_BYTES: usize = 11;

/// An element of a vector, which has a text of at most 11 bytes.
pub trait Written {
    ghost use Rattle.std.specs.Prelude.{ℕ, List};

    ghost text_of: { Self → List ℕ };

    /// Writes the element's text so that it ends where `end` says, and returns where it starts.
    fn write_before(&self, page: &mut [u8], end: usize) -> usize
        requires { (MOST_TEXT_BYTES ≤ end) × (end ≤ length page.old) }
        ensures written { drop result page.new ≡ text_of self.now ++ drop end page.old }
        ensures short { end ≤ result + MOST_TEXT_BYTES }
        ensures within { result ≤ end };

    /// How many bytes the element's text has.
    fn text_len(&self) -> u32
        ensures count { result ≡ length (text_of self.now) }
        ensures few { result ≤ MOST_TEXT_BYTES };
}

/// The least number of eleven digits, one more than the magnitude of any element has.
const LEAST_OF_ELEVEN_DIGITS: u64 = 10_000_000_000;

/// How many digits a number has in decimal.
#[inline(always)]
fn digit_count(number: u32) -> u32
    ensures { result ≡ length (decimal number) }
{
    // a sum, since a processor can't foresee which of several branches a number takes
    1 + u32::from(number >= 10)
        + u32::from(number >= 100)
        + u32::from(number >= 1_000)
        + u32::from(number >= 10_000)
        + u32::from(number >= 100_000)
        + u32::from(number >= 1_000_000)
        + u32::from(number >= 10_000_000)
        + u32::from(number >= 100_000_000)
        + u32::from(number >= 1_000_000_000)
}

/// An integer's text is its decimal.
#[tactic(auto, using(crate::proofs::DecimalTexts::short, crate::proofs::DecimalTexts::from_bool_small))]
impl Written for i32 {
    ghost use Rattle.std.specs.Fmt.{signed_decimal};

    ghost text_of = { signed_decimal };

    fn write_before(&self, page: &mut [u8], end: usize) -> usize {
        let number = *self;
        let magnitude = number.unsigned_abs();
        // eleven digits and a sign for every number, whose text is their end: with no branch on its length or sign
        itoa::write_digits(LEAST_OF_ELEVEN_DIGITS + u64::from(magnitude), page, end);
        let start = end - digit_count(magnitude) as usize;
        page[start - 1] = b'-';
        start - usize::from(number < 0)
    }

    #[inline(always)]
    fn text_len(&self) -> u32 {
        let number = *self;
        digit_count(number.unsigned_abs()) + u32::from(number < 0)
    }
}

/// A boolean's text is `T` or `F`.
impl Written for bool {
    ghost use Rattle.value_texts.specs.Texts.{boolean_text};

    ghost text_of = { boolean_text };

    fn write_before(&self, page: &mut [u8], end: usize) -> usize {
        page[end - 1] = if *self { b'T' } else { b'F' };
        end - 1
    }

    #[inline(always)]
    fn text_len(&self) -> u32 {
        1
    }
}
