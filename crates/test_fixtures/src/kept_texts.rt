//! A long text that is appended to another, which is kept, even if memory is refused.

use crate::hosts::text_of;
use call_reader::put_value;
use cvl_base::limits::MOST_ELEMENTS;
use cvl_base::{Config, Ints, Memory, NoResources, Value};
use segdes::SegDes;
use std::alloc::Global;
use std::thread::Threads;

/// The least number of elements whose texts two threads write, and the first one, which is written before.
const COUNT: usize = 32_769;

/// A text stays on one thread if it is longer than what is appended may be: eleven bytes for each element but the first. A
/// bracket and the one byte of the first element stand before these.
pub const LONG_TEXT: usize = 11 * COUNT - 2;

/// The sevens.
fn sevens_of<A: Memory>(heap: A) -> Result<Value<A>, NoResources> {
    let sevens = vec![in heap; 7; COUNT]?;
    if sevens.len() > MOST_ELEMENTS {
        return Err(NoResources);
    }
    Ok(Value::Integers(Ints::from_vec(sevens)))
}

/// Whether this is the text of the sevens.
fn is_shown(alloc: Global, text: &[u8]) -> Result<bool, NoResources> {
    let shown = text_of(alloc, "[", "7 ", COUNT - 1, "7]")?;
    Ok(text == shown.as_bytes())
}

/// Whether the text of the sevens is appended to one of so many bytes, which is kept.
pub fn appends<R: Threads + Sync, A: Memory>(
    rt: &R,
    heap: A,
    alloc: Global,
    length: usize,
) -> Result<bool, NoResources> {
    let config = Config::new(4_096, 2).unwrap();
    let before = vec![in alloc; b'.'; length]?;
    let mut text = Vec::from_slice(heap, &before)?;
    let sevens = sevens_of(heap)?;
    let none: Option<SegDes<A>> = None;
    let put = put_value(rt, heap, config, &sevens, none.as_ref(), &mut text);
    match (put, text.strip_prefix(before.as_slice())) {
        (Ok(()), Some(shown)) => is_shown(alloc, shown),
        (Err(refused), Some([])) => Err(refused),
        _ => Ok(false),
    }
}
