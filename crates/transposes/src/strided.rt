//! Elements at equal distances, written in a row.

ghost use Rattle.std.specs.Prelude.{◌≡◌, ◌+◌, ◌*◌, ◌<◌, ◌≤◌, ◌⊎◌, ℕ, length, slice_index_or};
ghost use Rattle.cvl_base.specs.Limits.{most_places};

/// Writes the element at place `first` of the source and those `step` places on to the places from `start` on.
#[inline]
pub(crate) fn write_strided<T: Copy>(
    source: &[T],
    first: usize,
    step: usize,
    count: usize,
    out: &mut [T],
    start: usize,
)
    requires within { (k : ℕ) → k < count → first + k * step < length source.now }
    requires room { start + count ≤ length out.old }
    requires in_limit { length source.now ≤ most_places }
    ensures written { (k : ℕ) (d : T) → k < count →
        slice_index_or out.new (start + k) d ≡ slice_index_or source.now (first + k * step) d }
    ensures others { (i : ℕ) (d : T) → (i < start) ⊎ (start + count ≤ i) →
        slice_index_or out.new i d ≡ slice_index_or out.old i d }
{
    for k in 0..count {
        out[start + k] = source[first + k * step];
    }
}
