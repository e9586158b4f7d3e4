//! Short segments of uneven lengths. A loop over each of them ends where the processor does not expect it, which takes longer
//! than the elements do. So `short_scans` and `short_reduces` have one loop over the elements of many segments, which keeps a sum
//! for each of them, or one that begins anew for each.

ghost use Rattle.std.specs.Prelude.{◌≡◌, map, sum, unsigned_abs};
ghost use Rattle.cvl_base.specs.Descriptors.{AreLengthsWithin};
ghost use Rattle.cvl_base.specs.Limits.{most_places};

/// How many segments are walked at once.
pub const GROUP: usize = 128;

/// How many elements they have at most; more are walked segment by segment.
pub const GROUP_ELEMENTS: usize = 1024;

/// The most bytes of an item for which many sums are kept at once. No monoid of this library has larger items, so the compiler
/// leaves the test out.
pub const LARGEST: usize = 16;

/// Fewer segments than this are walked one by one, since many at once take some preparation.
const FEW: usize = 8;

/// Whether more than a quarter of the lengths are other than those two before them. So segments of one length vary no more if the
/// last one is shorter, or if each second one is empty: a processor foresees where these end.
fn vary(lengths: &[i32]) -> bool {
    let mut changes: u32 = 0;
    for place in 2..lengths.len() {
        let changed = lengths[place] != lengths[place - 2];
        changes = changes.wrapping_add(changed as u32);
    }
    changes as usize > lengths.len() / 4
}

/// Whether segments with these lengths are short and uneven: they have at most eight elements on average, all or the first ones,
/// and their lengths vary, so that the processor does not foresee where each ends. The first and the last segments show that.
/// `elements` is how many they have together, or more. Nothing is claimed of the answer, which only decides how fast a walk is.
pub fn are_short_and_uneven(lengths: &[i32], elements: usize) -> bool
    requires { AreLengthsWithin most_places lengths.now }
{
    if lengths.len() < FEW {
        return false;
    }
    let shown = lengths.len().min(GROUP);
    let (first, _) = lengths.split_at(shown);
    let (_, last) = lengths.split_at(lengths.len() - shown);
    let are_short = elements / 8 <= lengths.len() || total_of(first) / 8 <= shown;
    are_short && (vary(first) || vary(last))
}

/// How many elements the segments with these lengths have together.
pub fn total_of(lengths: &[i32]) -> usize
    requires { AreLengthsWithin most_places lengths.now }
    ensures { result ≡ sum (map unsigned_abs lengths.now) }
{
    let mut total = 0;
    for length in lengths {
        total += *length as usize;
    }
    total
}
