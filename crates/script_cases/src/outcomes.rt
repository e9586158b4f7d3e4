//! The outcome of a run.

use crate::explained_stops::{explanation_of, inputs_of};
use case_files::SingleRun;
use cvl_base::{Memory, NoResources};
use script_runs::{MemSink, Stop, put_stop, run};
use std::alloc::Global;
use std::thread::Threads;

/// What a line that writes begins with.
const WRITES: &[u8] = b"write ";

/// What a script wrote, and why it stopped.
#[derive(Drop)]
pub struct Outcome {
    /// The text, and after it the line that says why the script stopped, if it did.
    pub shown: Vec<u8>,
    /// The explanation of that, if the case compares it.
    pub explained: Vec<u8>,
    /// How many bytes the text has.
    written: usize,
    /// The line at which memory ran out.
    out_of_memory: Option<u32>,
}

/// Makes a run on this memory. What it shows is kept in ample memory.
pub fn outcome_of<R: Threads + Sync, A: Memory>(
    rt: &R,
    ample: Global,
    heap: A,
    single: &SingleRun<'_>,
) -> Result<Outcome, NoResources> {
    let inputs = inputs_of(heap, &single.inputs)?;
    let mut sink = MemSink::new(ample);
    let script = single.case.script.as_slice();
    let ran = run(rt, heap, single.config, script, inputs, &mut sink);
    let mut shown = sink.into_vec();
    let written = shown.len();
    let mut explained = Vec::new(ample);
    let mut out_of_memory = None;
    if let Err(why) = ran {
        put_stop(&why, &mut shown)?;
        if let Stop::NoResources { line } = why {
            out_of_memory = Some(line);
        } else if !single.case.explained.is_empty() {
            let text = explanation_of(rt, ample, heap, single, &why)?;
            explained.extend_from_slice(&text)?;
        }
    }
    Ok(Outcome {
        shown,
        explained,
        written,
        out_of_memory,
    })
}

/// How many of the first lines of a script write.
fn writing_lines(script: &[u8], lines: usize) -> usize {
    let mut writing: usize = 0;
    for line in script.split(|byte| *byte == b'\n').take(lines) {
        writing = writing.saturating_add(usize::from(line.starts_with(WRITES)));
    }
    writing
}

/// The first lines, so many of them.
fn first_lines(bytes: &[u8], lines: usize) -> &[u8] {
    let mut end: usize = 0;
    for line in bytes.split_inclusive(|byte| *byte == b'\n').take(lines) {
        end = end.saturating_add(line.len());
    }
    let (front, _) = bytes.split_at(end.min(bytes.len()));
    front
}

impl Outcome {
    /// Whether all is as expected.
    pub fn is_expected(&self, single: &SingleRun<'_>) -> bool {
        self.shown == single.shown && self.explained == single.case.explained
    }

    /// Whether the text is that of the lines before this one, and a beginning of the text of this one.
    fn ends_in(&self, single: &SingleRun<'_>, line: u32) -> bool {
        let line = line as usize;
        let (text, _) = self.shown.split_at(self.written.min(self.shown.len()));
        let script = single.case.script.as_slice();
        let before = writing_lines(script, line.saturating_sub(1));
        let all = writing_lines(script, line);
        text.starts_with(first_lines(&single.shown, before))
            && first_lines(&single.shown, all).starts_with(text)
    }
}

/// Whether a run on this memory comes out as expected. If it is refused memory, whether its text ends in the line that it names:
/// then the answer is the refusal.
pub fn comes_out<R: Threads + Sync, A: Memory>(
    rt: &R,
    ample: Global,
    heap: A,
    single: &SingleRun<'_>,
) -> Result<bool, NoResources> {
    let outcome = outcome_of(rt, ample, heap, single)?;
    match outcome.out_of_memory {
        Some(line) if outcome.ends_in(single, line) => Err(NoResources),
        Some(_) => Ok(false),
        None => Ok(outcome.is_expected(single)),
    }
}
