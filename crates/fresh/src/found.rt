//! The first place whose item has no value, found while items are written.

ghost use Rattle.std.specs.Prelude.{◌≡◌, ◌∷◌, []};
ghost use Rattle.std.specs.Option.{option_or};
ghost use Rattle.fresh.specs.Found.{first_without};

/// The place of the first item without a value: the one found before, or else that of this item if it has no value.
#[inline(always)]
pub fn first_found<T: Drop>(found: Option<usize>, value: Option<T>, place: usize) -> Option<usize>
    ensures { result ≡ option_or found (first_without place (value ∷ [])) }
{
    match (found, value) {
        (None, None) => Some(place),
        _ => found,
    }
}
