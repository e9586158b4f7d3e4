//! Which places of a permute take part, and where they are sent.

ghost use Rattle.std.specs.Prelude.{◌≡◌, ◌<◌, ℤ, List, length, Option, None, slice_index_or};
ghost use Rattle.cvl_base.specs.Permutes.{destination_if};

/// The destinations of places, one after another: the index of each place that takes part.
pub trait Destinations {
    ghost destinations: { Self → List (Option ℤ) };

    /// How many places there are.
    fn count(&self) -> usize
        ensures { result ≡ length (destinations self.now) };

    /// The index of place `k`, and whether the place takes part.
    // The index is read in any case, so that a walk needs no branch on a flag.
    fn at(&self, k: usize) -> (&i32, bool)
        requires { k < length (destinations self.now) }
        ensures { slice_index_or (destinations self.now) k None ≡ destination_if result.0.now result.1 };
}

/// Each place takes part.
#[derive(Clone, Copy, Debug)]
pub struct AllDestinations<'a> {
    /// The index of each place.
    pub index: &'a [i32],
}

impl<'a> Destinations for AllDestinations<'a> {
    ghost use Rattle.cvl_base.specs.Permutes.{all_destinations};

    ghost destinations = { λ t. all_destinations t.index.now };

    #[inline]
    fn count(&self) -> usize {
        self.index.len()
    }

    #[inline]
    fn at(&self, k: usize) -> (&i32, bool) {
        (&self.index[k], true)
    }
}

/// The places whose flag is true take part.
#[derive(Clone, Copy, Debug)]
pub struct FlaggedDestinations<'a> {
    /// The index of each place.
    pub index: &'a [i32],
    /// A flag for each place.
    pub flags: &'a [bool],
}

impl<'a> Destinations for FlaggedDestinations<'a> {
    ghost use Rattle.cvl_base.specs.Permutes.{flagged_destinations};

    ghost destinations = { λ t. flagged_destinations t.index.now t.flags.now };

    #[inline]
    #[tactic(auto, using(crate::proofs::Sent::flagged))]
    fn count(&self) -> usize {
        self.index.len().min(self.flags.len())
    }

    #[inline]
    #[tactic(auto, using(crate::proofs::Sent::flagged))]
    fn at(&self, k: usize) -> (&i32, bool) {
        (&self.index[k], self.flags[k])
    }
}
