//! The ways to make a permute, chosen by the configuration and the lengths alone.

ghost use Rattle.std.specs.Prelude.{◌≡◌};
ghost use Rattle.permutes.specs.Ways.{RacesWithin, WalksWithin, flat_way, pace_of, segment_way};

use cvl_base::Config;
use cvl_base::limits::MOST_ELEMENTS;
use permute_races::permute_pace;
use sharing::{LEAST_SEARCHED, LEAST_SHARED, Pace, ThreadCount, race_shape, threads_writing};

/// A way to make a permute. It does not change the result.
#[derive(Clone, Copy)]
pub enum Way {
    /// Workers race for the senders, at this pace, and a second walk takes the elements.
    Race(Pace),
    /// This many threads write the elements in one walk, which shows whether any place is bad. Only then is the first bad place
    /// searched for: by workers who race at the pace, or by the calling thread.
    OneWalk(ThreadCount, Option<Pace>),
    /// The calling thread finds the senders, and a second walk takes the elements.
    Alone,
}

impl Way {
    /// The tiles and the workers of the race for the senders, if there is one; none if one thread walks.
    pub fn pace(self) -> Option<Pace>
        ensures { result ≡ pace_of self }
    {
        match self {
            Way::Race(pace) => Some(pace),
            Way::OneWalk(_, search) => search,
            Way::Alone => None,
        }
    }
}

/// The way of a flat permute of `indices` indices into `places` places: one walk if the result is long enough that this is faster
/// than two, with any number of threads.
pub(crate) fn flat_way(config: Config, indices: usize, places: usize) -> Way
    ensures exact { result ≡ flat_way config indices places }
    ensures raced { RacesWithin places result }
    ensures walked { WalksWithin places result }
{
    if let Some(pace) = permute_pace(config, indices, places) {
        return Way::Race(pace);
    }
    if places < LEAST_SHARED || places > MOST_ELEMENTS {
        return Way::Alone;
    }
    let search = race_shape(indices >= LEAST_SEARCHED, config, indices);
    Way::OneWalk(threads_writing(config, places), search)
}

/// The way of a permute by segments, none of which has more than `widest` of the places: one walk, each thread on whole segments,
/// unless one segment is longer than a thread's share.
pub fn segment_way(config: Config, indices: usize, places: usize, widest: usize) -> Way
    ensures exact { result ≡ segment_way config indices places widest }
    ensures raced { RacesWithin places result }
{
    if let Some(pace) = permute_pace(config, indices, places) {
        return Way::Race(pace);
    }
    let threads = threads_writing(config, places);
    if widest > places / threads.get() {
        return Way::Alone;
    }
    Way::OneWalk(threads, None)
}
