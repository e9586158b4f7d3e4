//! How many indices of a back permute lie outside its source.

ghost use Rattle.std.specs.Prelude.{◌≡◌, ◌≤◌, length};
ghost use Rattle.cvl_base.specs.Limits.{most_places};
ghost use Rattle.permute_walks.specs.Indices.{count_outside};

/// How many places an index of 32 bits can name, from 0 on.
const NAMED_PLACES: usize = 2_147_483_648;

/// How many indices are none of `places` places.
// Without its sign an index below 0 exceeds all places, so that one comparison is enough.
#[inline(never)]
pub(crate) fn count_outside(index: &[i32], places: usize) -> u32
    requires { length index.now ≤ most_places }
    ensures { result ≡ count_outside places index.now }
{
    let end = places.min(NAMED_PLACES) as u32;
    let mut count = 0;
    for i in index {
        if i.cast_unsigned() >= end {
            count += 1;
        }
    }
    count
}
