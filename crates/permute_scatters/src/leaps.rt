//! Whether an index jumps from place to place, or runs along. No result depends on it: a wrong answer costs time alone, so no
//! clause says which it is.

ghost use Rattle.std.specs.Prelude.{◌≤◌, length};
ghost use Rattle.cvl_base.specs.Limits.{most_places};

/// From this many places on it pays to ask. A shorter result stays in a cache with whatever is kept of its places.
const LONG: usize = 65_536;

/// About how many indices are compared with the one after each.
const LOOKS: usize = 64;

/// Indices that name places of one block of this size run along.
const BLOCK: u32 = 1024;

/// Whether most indices of a long permute name a place far from that of the index before them. It samples a few of them, evenly,
/// and may be wrong: it chooses between two ways to the same result.
pub fn jumps(index: &[i32]) -> bool
    requires { length index.now ≤ most_places }
{
    let count = index.len();
    if count < LONG {
        return false;
    }
    let step = count / LOOKS;
    let mut far = 0;
    let mut k = 0;
    while k + 1 < count {
        if index[k].cast_unsigned() / BLOCK != index[k + 1].cast_unsigned() / BLOCK {
            far += 1;
        }
        k += step;
    }
    far > LOOKS / 2
}
