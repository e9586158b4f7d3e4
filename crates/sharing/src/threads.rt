//! How many threads share what a call does.

ghost use Rattle.std.specs.Prelude.{◌≡◌, ◌<◌, ◌≤◌};
ghost use Rattle.cvl_base.specs.Limits.{most_elements};
ghost use Rattle.sharing.specs.Shares.{clearing_threads, reading_threads, share_among, text_threads};
ghost use Rattle.sharing.specs.Shares.{writing_threads};

use crate::thread_count::ThreadCount;
use crate::{
    LEAST_CLEARED, LEAST_CLEARED_EACH, LEAST_EACH, LEAST_READ, LEAST_READ_EACH, LEAST_SHARED,
    LEAST_WRITTEN, LEAST_WRITTEN_EACH,
};
use cvl_base::Config;
use cvl_base::limits::MOST_ELEMENTS;

/// How many threads share so many elements or bytes, if each has at least `each` of them: at most `most`, and one if they are
/// fewer than `least`.
fn share_of(most: u32, items: usize, least: usize, each: usize) -> u32
    requires most { 1 ≤ most }
    requires each { 1 ≤ each }
    ensures exact { result ≡ share_among most items least each }
    ensures least { 1 ≤ result }
    ensures greatest { result ≤ most }
{
    if items < least {
        return 1;
    }
    (items / each).min(most as usize).max(1) as u32
}

/// The same for the configuration's workers.
fn threads_sharing(config: Config, items: usize, least: usize, each: usize) -> ThreadCount
    requires { 1 ≤ each }
    ensures exact { result ≡ share_among config.workers items least each }
    ensures least { 1 ≤ result }
    ensures greatest { result ≤ config.workers }
{
    ThreadCount::new(share_of(config.workers(), items, least, each))
}

/// As many threads as the configuration has workers, whatever they share: use it if you need them all.
pub fn all_workers(config: Config) -> ThreadCount
    ensures { result ≡ config.workers }
{
    ThreadCount::new(config.workers())
}

/// How many threads share the writing of this many elements: at most as many as the configuration has workers, and one if a
/// second doesn't pay.
pub fn threads_writing(config: Config, elements: usize) -> ThreadCount
    ensures exact { result ≡ writing_threads config.workers elements }
    ensures least { 1 ≤ result }
    ensures greatest { result ≤ config.workers }
{
    threads_sharing(config, elements, LEAST_SHARED, LEAST_EACH)
}

/// The same for at most `most` threads, at least one, that another library starts: a plain number, with which nothing of this
/// library forks.
pub fn threads_among(most: u32, elements: usize) -> u32
    requires { 1 ≤ most }
    ensures exact { result ≡ writing_threads most elements }
    ensures least { 1 ≤ result }
    ensures greatest { result ≤ most }
{
    share_of(most, elements, LEAST_SHARED, LEAST_EACH)
}

/// How many threads share the reading of an input of this many bytes: at most as many as the configuration has workers, and one
/// if a second doesn't pay.
pub fn threads_reading(config: Config, bytes: usize) -> ThreadCount
    ensures exact { result ≡ reading_threads config.workers bytes }
    ensures least { 1 ≤ result }
    ensures greatest { result ≤ config.workers }
{
    threads_sharing(config, bytes, LEAST_READ, LEAST_READ_EACH)
}

/// How many threads share the clearing of fresh memory for a file of this many bytes: at most as many as the configuration has
/// workers, and one if a second doesn't pay.
pub fn threads_clearing(config: Config, bytes: usize) -> ThreadCount
    ensures exact { result ≡ clearing_threads config.workers bytes }
    ensures least { 1 ≤ result }
    ensures greatest { result ≤ config.workers }
{
    threads_sharing(config, bytes, LEAST_CLEARED, LEAST_CLEARED_EACH)
}

/// How many threads share the writing of this many elements' texts: at most as many as the configuration has workers, and one if
/// a second doesn't pay, or if there are more than 4,194,304.
pub fn threads_writing_text(config: Config, elements: usize) -> ThreadCount
    ensures exact { result ≡ text_threads config.workers elements }
    ensures least { 1 ≤ result }
    ensures greatest { result ≤ config.workers }
    ensures few { 1 < result → elements ≤ most_elements }
{
    if elements > MOST_ELEMENTS {
        return ThreadCount::one();
    }
    threads_sharing(config, elements, LEAST_WRITTEN, LEAST_WRITTEN_EACH)
}
