//! Indices as places.

ghost use Rattle.std.specs.Prelude.{◌≡◌, ℕ, ◌<◌, ◌≤◌, pos, MatchOption};
ghost use Rattle.cvl_base.specs.Permutes.{place_among};

/// The place that an index names among `count` places, if it is one of them. Places count from 0, and a negative index
/// names none.
#[inline]
pub fn place_among(count: usize, index: &i32) -> Option<usize>
    ensures value { result ≡ place_among count index.now }
    ensures named { MatchOption result ((k : ℕ) → index.now ≡ pos k → count ≤ k)
        (λ place. (place < count) × (index.now ≡ pos place)) }
{
    if *index < 0 {
        return None;
    }
    let place = *index as usize;
    if place < count { Some(place) } else { None }
}
