//! The limits of the library, in faults and types.

/// The most elements that a vector of a script or a session has, and the greatest total of its descriptor.
pub const MOST_ELEMENTS: usize = 4_194_304;

/// The most elements that a vector of a caller in another language has, and the greatest total of its segments: the greatest
/// integer of 32 bits, so that its length and each place in it are such integers.
pub const MOST_PLACES: usize = 2_147_483_647;

/// The most names that are bound at one time.
pub const MOST_NAMES: usize = 4_096;

/// The most bytes that a script has.
pub const MOST_SCRIPT_BYTES: usize = 1_048_576;

/// The most bytes that a word has.
pub const MOST_WORD_BYTES: usize = 32;

/// The longest tile, in elements.
pub const LONGEST_TILE: u32 = 65_536;

/// The most workers that a call uses.
pub const MOST_WORKERS: u32 = 64;
