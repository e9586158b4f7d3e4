//! The sections of a file of cases.

use cvl_base::NoResources;
use std::alloc::Global;

/// What a heading's line begins with.
const MARK: &[u8] = b"== ";

/// A heading, and the lines below it up to the next heading.
#[derive(Drop)]
pub struct Section<'a> {
    /// The heading, without its mark.
    pub heading: &'a str,
    /// The kind of the heading: its first word.
    pub what: &'a str,
    /// The rest of the heading.
    pub rest: &'a str,
    /// The lines below it, with their line feeds.
    pub lines: Vec<u8>,
}

/// The section that a heading begins. A heading that is not UTF-8 has no kind.
fn section_of<'a>(alloc: Global, heading: &'a [u8]) -> Section<'a> {
    let heading = str::from_utf8(heading.trim_ascii_end()).unwrap_or("");
    let (what, rest) = heading.split_once(' ').unwrap_or((heading, ""));
    Section {
        heading,
        what,
        rest,
        lines: Vec::new(alloc),
    }
}

/// Cuts a file into its sections. What stands before its first heading is left out.
pub fn sections_of<'a>(alloc: Global, file: &'a [u8]) -> Result<Vec<Section<'a>>, NoResources> {
    let mut sections = Vec::new(alloc);
    for line in file.split_inclusive(|byte| *byte == b'\n') {
        if let Some(heading) = line.strip_prefix(MARK) {
            sections.push(section_of(alloc, heading))?;
        } else if let Some(section) = sections.last_mut() {
            section.lines.extend_from_slice(line)?;
        }
    }
    Ok(sections)
}
