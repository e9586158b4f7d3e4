//! A script that runs at a gate.

use crate::hosts::inputs_of;
use cvl_base::{Config, NoResources};
use refusing_memory::Refusing;
use shell::{MemSink, put_stop, run_gated};
use std::alloc::Global;
use std::thread::Threads;
use watching_gate::{Holds, Race, Watch};

/// A race on the scan board.
pub const SCAN: Race = Race::Scan;

/// A race on one board, or on two boards in turn.
pub const ONE: Race = Race::Leasts(1);

pub const TWO: Race = Race::Leasts(2);

/// A script, its inputs, and its outcome: the text that it writes, and the line that says why it stops.
#[derive(Clone, Copy)]
pub struct Script<'a> {
    pub lines: &'a str,
    pub inputs: &'a [&'a str],
    pub outcome: &'a str,
    /// What its workers race for.
    pub race: Race,
}

/// The tile and the workers, how many tiles the gate should see, and who is held.
pub type Run = (u32, u32, u32, Holds);

/// Whether a script has the right outcome in a run, and its gate sees every point of each tile and nobody who waits in vain.
pub fn comes_out<R: Threads + Sync>(
    rt: &R,
    alloc: Global,
    script: &Script<'_>,
    run: Run,
) -> Result<bool, NoResources> {
    let (tile, workers, tiles, holds) = run;
    let Ok(config) = Config::new(tile, workers) else {
        return Ok(false);
    };
    let heap = Refusing::none(alloc);
    let gate = Watch::new(alloc, script.race, tiles, workers.min(tiles), holds)?;
    let inputs = inputs_of(&heap, script.inputs)?;
    let mut sink = MemSink::new(alloc);
    let lines = script.lines.as_bytes();
    let ran = run_gated(rt, &heap, config, lines, inputs, &mut sink, &gate);
    let mut text = sink.into_vec();
    if let Err(stop) = ran {
        put_stop(&stop, &mut text)?;
    }
    Ok(text.as_slice() == script.outcome.as_bytes() && gate.saw_all())
}
