//! How much memory one call asks for: how many requests it makes, and for how many bytes in all.

use crate::hosts::inputs_of;
use crate::sessions::call_line;
use call_reader::read_line;
use cvl_base::{Config, Memory, Refused};
use refusing_memory::Refusing;
use std::alloc::Global;
use std::thread::Threads;
use vector_handles::Session;

/// What is bound before a call: 1,000 integers, numbers to divide by, booleans, and ten segments of 100 with the places in them;
/// and 40,000 integers, and as many places in segments of ten, more than one thread writes of a text.
const BEFORE: &str = "i = ind_luz 0 1 1000
t = dis_vuz 2 1000
m = mod_wuz i t
h = div_wuz i t
f = boo_wuz m
l = dis_vuz 100 10
d = mke_fov l
o = dis_vuz 0 10
p = dis_vuz 1 10
b = boo_wuz p
x = ind_lez o p d
k = div_wuz x t
r = cpy_wuz i
e = mke_fov l
j = ind_luz 0 1 40000
g = dis_vuz 10 4000
c = mke_fov g
n = dis_vuz 0 4000
q = dis_vuz 1 4000";

/// A session on which the names of the table are bound.
pub fn session_before<R: Threads + Sync, A: Memory>(
    rt: &R,
    heap: A,
    config: Config,
    inputs: &[&str],
) -> Result<Session<A>, Refused> {
    let mut session = Session::new(heap, config, inputs_of(heap, inputs)?)?;
    for before in BEFORE.split('\n') {
        call_line(rt, heap, &mut session, before)?;
    }
    Ok(session)
}

/// What the call of a line asks for, even with a fault. Its names are bound already, so that it makes no node of the names.
pub fn asked_by<'a, R: Threads + Sync>(
    rt: &R,
    heap: &'a Refusing<Global>,
    session: &mut Session<&'a Refusing<Global>>,
    line: &str,
) -> Result<(u64, u64), Refused> {
    let Some(call) = read_line(heap, line.as_bytes())? else {
        return Ok((0, 0));
    };
    let (requests, bytes) = (heap.requests(), heap.bytes());
    match session.apply(rt, &call) {
        Err(Refused::NoResources) => Err(Refused::NoResources),
        _ => Ok((
            heap.requests().wrapping_sub(requests),
            heap.bytes().wrapping_sub(bytes),
        )),
    }
}
