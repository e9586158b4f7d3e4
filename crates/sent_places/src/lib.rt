//! The first walk of a permute: it finds each place's sender in a range of the result, the place whose element goes there, or the
//! first bad index. `destinations` says which places take part and where each is sent, `sends` has the walk, and `stores` the
//! fast one that it tries first.
#![tactic(auto)]

pub mod destinations;
pub mod sends;
mod stores;

pub use destinations::{AllDestinations, Destinations, FlaggedDestinations};
pub use sends::{NOBODY, send_places};
