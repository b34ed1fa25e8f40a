//! The lines on standard input: the script, where it is there, and the transcript.

use crate::network::links::{is_of_script, read_links};
use crate::network::names::{Name, read_names};
use crate::network::undrawn::Undrawn;
use crate::reading::parts_of;
use pictures::network::{Link, NetworkLine, read_network_line};
use std::alloc::Global;
use std::str;

/// What was read.
#[derive(Drop)]
pub(crate) struct Run<'a> {
    /// The links, where there is a script.
    pub(crate) links: Vec<Link>,
    pub(crate) names: Vec<Name<'a>>,
    pub(crate) has_script: bool,
    pub(crate) texts: Vec<&'a str>,
    pub(crate) lines: Vec<NetworkLine<'a>>,
}

/// The number of lines that the script has.
fn script_end(parts: &[&[u8]]) -> usize {
    let mut end: usize = 0;
    for part in parts {
        match str::from_utf8(part) {
            Ok(line) if is_of_script(line) => end = end.saturating_add(1),
            _ => return end,
        }
    }
    end
}

/// The line of a transcript, and its text.
fn line_of(bytes: &[u8]) -> Option<(&str, NetworkLine<'_>)> {
    let text = str::from_utf8(bytes).ok()?;
    Some((text, read_network_line(text)?))
}

/// Reads what standard input had.
///
/// # Errors
///
/// `BadScript` and `NoLine` with the number of the first malformed line, or `Memory` where memory was refused.
pub(crate) fn read_run(alloc: Global, bytes: &[u8]) -> Result<Run<'_>, Undrawn> {
    let parts = parts_of(alloc, bytes)?;
    let end = script_end(parts.as_slice()).min(parts.len());
    let (script, transcript) = parts.as_slice().split_at(end);
    let mut read = Run {
        links: read_links(alloc, script)?,
        names: read_names(alloc, script)?,
        has_script: end > 0,
        texts: Vec::new(alloc),
        lines: Vec::new(alloc),
    };
    let mut number: usize = 0;
    for part in transcript {
        number = number.saturating_add(1);
        let Some((text, line)) = line_of(part) else {
            return Err(Undrawn::NoLine(number));
        };
        read.texts.push(text)?;
        read.lines.push(line)?;
    }
    Ok(read)
}
