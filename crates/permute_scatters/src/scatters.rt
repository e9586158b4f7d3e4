//! The second walk, which writes each element to its place if no place is bad.

ghost use Rattle.std.specs.Prelude.{◌≡◌, ◌≤◌, length, None};
ghost use Rattle.cvl_base.specs.Limits.{most_places};
ghost use Rattle.cvl_base.specs.Permutes.{all_destinations, first_fault, wrongs};
ghost use Rattle.permute_walks.specs.Senders.{senders_of, written_over};

/// Writes each element to its index over what stands there; each index names a place of the room, and no two the same.
#[inline(never)]
pub fn scatter<T: Copy>(source: &[T], index: &[i32], out: &mut [T])
    requires as_long { length source.now ≡ length index.now }
    requires in_limit { length index.now ≤ most_places }
    requires apart { None ≡ first_fault 0 (wrongs (length out.old) (all_destinations index.now)) }
    ensures { out.new ≡ written_over source.now (senders_of 0 (all_destinations index.now) (length out.old)) out.old }
{
    for (k, i) in index.iter().enumerate() {
        out[*i as usize] = source[k];
    }
}
