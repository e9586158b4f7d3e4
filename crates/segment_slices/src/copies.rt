//! The copy of a slice to its places in a room.

ghost use Rattle.std.specs.Prelude.{◌≡◌, ◌+◌, ◌≤◌, ◌++◌, drop, length, take};

/// Copies `count` elements, from place `first` of the source on, to the places of the room from `start` on.
#[inline]
pub(crate) fn copy_slice<T: Copy>(
    source: &[T],
    first: usize,
    count: usize,
    out: &mut [T],
    start: usize,
)
    requires within { first + count ≤ length source.now }
    requires room { start + count ≤ length out.old }
    ensures { take (start + count) out.new ≡ take start out.old ++ take count (drop first source.now) }
{
    // A call costs more than the move of one element.
    if count == 1 {
        out[start] = source[first];
        return;
    }
    out[start..start + count].copy_from_slice(&source[first..first + count]);
}
