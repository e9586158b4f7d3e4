//! Explanations of why a run stops.

use case_files::SingleRun;
use cvl_base::limits::MOST_SCRIPT_BYTES;
use cvl_base::{Memory, NoResources};
use explanations::explain;
use script_runs::{MemSink, OpenGate, Stop, run_lines};
use std::alloc::Global;
use std::thread::Threads;
use vector_handles::{Input, Session};

/// The inputs with these bytes.
pub fn inputs_of<A: Memory>(heap: A, files: &[&[u8]]) -> Result<Vec<Input<A>, A>, NoResources> {
    let mut inputs = Vec::with_capacity(heap, files.len())?;
    for file in files {
        inputs.push(Input::Bytes(Vec::from_slice(heap, file)?))?;
    }
    Ok(inputs)
}

/// So many names of files: `1.txt`, `2.txt` and so on.
fn file_names(ample: Global, count: usize) -> Result<Vec<String>, NoResources> {
    let mut names = Vec::with_capacity(ample, count)?;
    for place in 0..count {
        let number = place.saturating_add(1);
        names.push(format!(in ample; "{number}.txt")?)?;
    }
    Ok(names)
}

/// The explanation of this stop of a run. The files of its inputs are named `1.txt`, `2.txt` and so on.
pub fn explanation_of<R: Threads + Sync, A: Memory>(
    rt: &R,
    ample: Global,
    heap: A,
    single: &SingleRun<'_>,
    stop: &Stop,
) -> Result<Vec<u8, A>, NoResources> {
    let script = single.case.script.as_slice();
    let mut session = Session::new(heap, single.config, inputs_of(heap, &single.inputs)?)?;
    if script.len() <= MOST_SCRIPT_BYTES {
        let mut sink = MemSink::new(ample);
        let ran = run_lines(rt, heap, &mut session, script, &mut sink, &OpenGate);
        if let Err(Stop::NoResources { .. }) = ran {
            return Err(NoResources);
        }
    }
    let names = file_names(ample, single.inputs.len())?;
    let files: Vec<&str> = names.iter().map(String::as_str).collect(ample)?;
    explain(rt, heap, &session, &files, script, stop)
}
