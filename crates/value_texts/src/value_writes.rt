//! The text of values.

ghost use Rattle.std.specs.Prelude.{◌≡◌, length, map, take, unsigned_abs, IsOk, Ok, OnOk, OnErr};
ghost use Rattle.std.specs.Option.{ForSome, option_copied};
ghost use Rattle.value_texts.specs.Texts.{Appends, after_bytes, cut_text, text_of, value_text};

use crate::nest_text::put_nest;
use crate::vector_text::{PAGE_BYTES, Page, put_element, put_vector};
use cvl_base::{Config, Memory, NoResources, Value};
use segdes::SegDes;
use std::alloc::Allocator;
use std::thread::Threads;

/// Appends the text of a value on its own. After a refusal the text begins as before.
fn put_plain<R: Threads + Sync, A: Memory>(
    rt: &R,
    alloc: A,
    config: Config,
    value: &Value<A>,
    page: &mut Page,
    text: &mut Vec<u8, A>,
) -> Result<(), NoResources>
    ensures { Appends result text.old.items text.new.items (text_of value.now) }
{
    match value {
        Value::Integers(numbers) => put_vector(rt, alloc, config, numbers.as_slice(), page, text),
        Value::Booleans(flags) => put_vector(rt, alloc, config, flags.as_slice(), page, text),
        Value::Descriptor(lengths) => put_vector(rt, alloc, config, lengths.as_slice(), page, text),
        Value::Integer(number) => put_element(number, page, text),
        Value::Boolean(flag) => put_element(flag, page, text),
    }
}

/// Appends the text of a vector cut by lengths. After a refusal the text begins as before.
fn put_nested<R: Threads + Sync, A: Memory>(
    rt: &R,
    alloc: A,
    config: Config,
    value: &Value<A>,
    lengths: &[i32],
    page: &mut Page,
    text: &mut Vec<u8, A>,
) -> Result<(), NoResources>
    requires { IsOk (cut_text (map unsigned_abs lengths.now) value.now) }
    ensures ok { OnOk result
        (after_bytes text.old.items (cut_text (map unsigned_abs lengths.now) value.now) ≡ Ok text.new.items) }
    ensures begins { take (length text.old.items) text.new.items ≡ text.old.items }
{
    match value {
        Value::Integers(numbers) => put_nest(
            rt,
            alloc,
            config,
            lengths,
            numbers.as_slice(),
            page,
            text,
        ),
        Value::Booleans(flags) => put_nest(
            rt,
            alloc,
            config,
            lengths,
            flags.as_slice(),
            page,
            text,
        ),
        Value::Descriptor(_) | Value::Integer(_) | Value::Boolean(_) => unreachable!(),
    }
}

/// The outcome of a call that appends to a text of `len` bytes. After a refusal what it has appended goes.
fn undo_refused<A: Allocator>(
    outcome: Result<(), NoResources>,
    len: usize,
    text: &mut Vec<u8, A>,
) -> Result<(), NoResources>
    ensures same { result ≡ outcome }
    ensures ok { OnOk outcome (text.new.items ≡ text.old.items) }
    ensures err { OnErr outcome (text.new.items ≡ take len text.old.items) }
{
    if outcome.is_err() {
        text.truncate(len);
    }
    outcome
}

/// Appends the text of a value: integers in decimal, booleans as `T` and `F`, vectors as `[0 3 4]`, the empty vector as `[]`, a
/// descriptor as its lengths, and a vector cut by a descriptor as the vectors of its segments, `[[] [5 1]]`.
///
/// With a descriptor the value is a vector as long as the descriptor's total. Several threads, no more than the configuration has
/// workers, write a long vector into fresh memory with room for all its bytes; a shorter text grows by the bytes of up to 1,024
/// elements of a vector or of a segment at a time. If memory is refused, the text is as before. Source: this library's text
/// format.
pub fn put_value<R: Threads + Sync, A: Memory>(
    rt: &R,
    alloc: A,
    config: Config,
    value: &Value<A>,
    descriptor: Option<&SegDes<A>>,
    text: &mut Vec<u8, A>,
) -> Result<(), NoResources>
    requires { ForSome descriptor (λ d. IsOk (cut_text d.now value.now)) }
    ensures ok { OnOk result
        (after_bytes text.old.items (value_text (option_copied descriptor.entry) value.now) ≡ Ok text.new.items) }
    ensures err { OnErr result (text.new.items ≡ text.old.items) }
{
    let len = text.len();
    let mut page = [0; PAGE_BYTES];
    match descriptor {
        None => {
            let outcome = put_plain(rt, alloc, config, value, &mut page, text);
            undo_refused(outcome, len, text)
        }
        Some(descriptor) => {
            let lengths = descriptor.lengths();
            let outcome = put_nested(rt, alloc, config, value, lengths, &mut page, text);
            undo_refused(outcome, len, text)
        }
    }
}
