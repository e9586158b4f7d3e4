//! The cases of a file.
//!
//! A file of cases is lines. What stands before its first heading is left out. A heading is a line that begins with `== `,
//! and what it says of the last case is its rest and the lines below it, up to the next heading:
//!
//! | Heading | What it says |
//! |---|---|
//! | `== case NAME` | a case of this name begins |
//! | `== tile 1 2 workers 3 64` | it runs in tiles of each of these lengths, by each of these numbers of workers; tiles of 2
//! elements and 3 workers if there is no such heading |
//! | `== script` | the script |
//! | `== input` | an input; the first is input 1 |
//! | `== text` | what the script writes |
//! | `== stop` | the line that says why the script stops, if it does not run to its end |
//! | `== explained` | the explanation of that stop; it is not compared without such a heading |
//! | `== each` | lines that are each a run of its own |
//! | `== more` | these lines continue the heading before this one |
//! | `== refused 12` | each run makes at least so many requests for memory; each is refused in turn |
//!
//! Scripts, inputs, texts, stops, explanations and what continues them are the lines below their heading with their line feeds.
//! After the word, `times 1000` takes the lines without the last line feed, a thousand times; any other word names a file beside
//! the file of cases, whose bytes stand for the lines.
//!
//! A line below `== each` has the last inputs of its run, with `|` between two of them. After ` -> ` it may have the run's
//! outcome, one line of text or the line of a stop; without one, the text and the stop are those of the case.
//!
//! If requests are refused, each is refused alone, and then with all after it. A run that is refused memory may end as with ample
//! memory, if only one request is refused; or else it stops with `line N: no resources`, at a line N, after all text of the lines
//! before N and a beginning of the text of N. A line that writes begins with `write ` there. All memory is freed.

use crate::sections::{Section, sections_of};
use crate::trouble::Trouble;
use cvl_base::{Config, NoResources};
use std::alloc::Global;
use std::fs;
use std::rt::Files;

/// A script with its inputs, and its expected outcome.
#[derive(Drop)]
pub struct Case<'a> {
    /// What the case shows.
    pub name: &'a str,
    /// The tiles and workers that run it; tiles of 2 elements and 3 workers if there are none.
    pub configs: Vec<Config>,
    /// How many requests for memory each run makes at least, if each of them is refused in turn.
    pub requests: Option<u64>,
    /// The script.
    pub script: Vec<u8>,
    /// The inputs, in their order.
    pub inputs: Vec<Vec<u8>>,
    /// The text that the script writes.
    pub text: Vec<u8>,
    /// The line that says why the script stops; nothing if it runs to its end.
    pub stop: Vec<u8>,
    /// The explanation of the stop; nothing if it is not compared.
    pub explained: Vec<u8>,
    /// Lines that are each a run of its own; nothing if the case is one run.
    pub each: Vec<u8>,
    /// What the last section was about.
    last: &'a str,
}

impl<'a> Case<'a> {
    /// A case of an empty script.
    fn new(alloc: Global, name: &'a str) -> Case<'a> {
        Case {
            name,
            configs: Vec::new(alloc),
            requests: None,
            script: Vec::new(alloc),
            inputs: Vec::new(alloc),
            text: Vec::new(alloc),
            stop: Vec::new(alloc),
            explained: Vec::new(alloc),
            each: Vec::new(alloc),
            last: "case",
        }
    }

    /// Where the content of such a section goes.
    fn place(&mut self, what: &str) -> Option<&mut Vec<u8>> {
        match what {
            "script" => Some(&mut self.script),
            "input" => self.inputs.last_mut(),
            "text" => Some(&mut self.text),
            "stop" => Some(&mut self.stop),
            "explained" => Some(&mut self.explained),
            "each" => Some(&mut self.each),
            _ => None,
        }
    }

    /// Adds what a section says of the case.
    fn add<R: Files + AllocGlobal>(
        &mut self,
        rt: &R,
        folder: &str,
        section: &Section<'a>,
    ) -> Result<(), Trouble<'a>> {
        match section.what {
            "tile" => return add_configs(&mut self.configs, section),
            "refused" => {
                self.requests = Some(number_of(section, section.rest)?);
                return Ok(());
            }
            "more" => {}
            what => self.last = what,
        }
        if section.what == "input" {
            self.inputs.push(Vec::new(rt.alloc()))?;
        }
        match self.place(self.last) {
            Some(place) => put_content(rt, folder, section, place),
            None => Err(Trouble::Heading(section.heading)),
        }
    }
}

/// The tiles and workers that two words name, or nothing if they name none.
fn config_of(tile: &str, workers: &str) -> Option<Config> {
    Config::new(tile.parse().ok()?, workers.parse().ok()?).ok()
}

/// Adds the tiles and workers of a heading such as `tile 1 2 workers 3 64`: each length of tiles with each number of
/// workers.
fn add_configs<'a>(configs: &mut Vec<Config>, section: &Section<'a>) -> Result<(), Trouble<'a>> {
    let bad = Trouble::Heading(section.heading);
    let (tiles, workers) = section.rest.split_once(" workers ").ok_or(bad)?;
    for tile in tiles.split(' ') {
        for workers in workers.split(' ') {
            configs.push(config_of(tile, workers).ok_or(bad)?)?;
        }
    }
    Ok(())
}

/// The number in a word of a section's heading.
fn number_of<'a>(section: &Section<'a>, word: &str) -> Result<u64, Trouble<'a>> {
    word.parse().ok().ok_or(Trouble::Heading(section.heading))
}

/// How many copies of a piece are appended at once.
const COPIES_AT_ONCE: u64 = 1_000;

/// Appends a piece to other bytes, so many times.
fn put_copies(place: &mut Vec<u8>, piece: &[u8], times: u64) -> Result<(), NoResources> {
    for _ in 0..times {
        place.extend_from_slice(piece)?;
    }
    Ok(())
}

/// Appends lines without their last line feed to other bytes, so many times. They are often a single byte that is wanted twenty
/// million times, so a thousand copies are put at once.
fn put_times(
    alloc: Global,
    place: &mut Vec<u8>,
    lines: &[u8],
    times: u64,
) -> Result<(), NoResources> {
    let piece = lines.strip_suffix(b"\n".as_slice()).unwrap_or(lines);
    let mut copies = Vec::new(alloc);
    if times >= COPIES_AT_ONCE {
        put_copies(&mut copies, piece, COPIES_AT_ONCE)?;
    }
    put_copies(place, &copies, times / COPIES_AT_ONCE)?;
    put_copies(place, piece, times % COPIES_AT_ONCE)
}

/// Appends the bytes of the file of this name to other bytes.
fn put_file<'a, R: Files + AllocGlobal>(
    rt: &R,
    folder: &str,
    name: &'a str,
    place: &mut Vec<u8>,
) -> Result<(), Trouble<'a>> {
    let path = format!(in rt.alloc(); "{folder}{name}")?;
    match fs::read(rt, &path) {
        Ok(bytes) => Ok(place.extend_from_slice(&bytes)?),
        Err(_) => Err(Trouble::Unreadable(name)),
    }
}

/// Appends the content of a section to its place.
fn put_content<'a, R: Files + AllocGlobal>(
    rt: &R,
    folder: &str,
    section: &Section<'a>,
    place: &mut Vec<u8>,
) -> Result<(), Trouble<'a>> {
    if section.rest.is_empty() {
        return Ok(place.extend_from_slice(&section.lines)?);
    }
    match section.rest.strip_prefix("times ") {
        Some(times) => {
            let times = number_of(section, times)?;
            Ok(put_times(rt.alloc(), place, &section.lines, times)?)
        }
        None => put_file(rt, folder, section.rest, place),
    }
}

/// Adds what a section says to the cases: a case of its own, or a part of the last one.
fn add_section<'a, R: Files + AllocGlobal>(
    rt: &R,
    folder: &str,
    section: &Section<'a>,
    cases: &mut Vec<Case<'a>>,
) -> Result<(), Trouble<'a>> {
    if section.what == "case" {
        cases.push(Case::new(rt.alloc(), section.rest))?;
        return Ok(());
    }
    match cases.last_mut() {
        Some(case) => case.add(rt, folder, section),
        None => Err(Trouble::Heading(section.heading)),
    }
}

/// Reads the cases of a file, and the files of the folder that they name.
pub fn cases_of<'a, R: Files + AllocGlobal>(
    rt: &R,
    folder: &str,
    file: &'a [u8],
) -> Result<Vec<Case<'a>>, Trouble<'a>> {
    let mut cases = Vec::new(rt.alloc());
    for section in sections_of(rt.alloc(), file)? {
        add_section(rt, folder, &section, &mut cases)?;
    }
    Ok(cases)
}
