//! Replaces a file by a text in which each run has its transcript.

use crate::files::ScenarioFile;
use crate::run::{Executed, WHOLE};
use mote_kit::run_file::{NewLines, Part};
use mote_kit::text_file::{TextFault, replace_text};
use std::alloc::{AllocError, Global};
use std::io;
use std::rt::Files;

/// Puts the result of the run of a part into the lines of its file. Returns whether they change.
fn put_part(alloc: Global, new: &mut NewLines, part: Part<'_>) -> Result<bool, AllocError> {
    let executed = Executed::of(alloc, part, WHOLE)?;
    new.put(alloc, &executed.run, &executed.outcome)
}

/// Puts the results of all runs into the lines of their file. Returns the number of runs whose lines change.
fn put_parts(alloc: Global, new: &mut NewLines, parts: &[Part<'_>]) -> Result<usize, AllocError> {
    let mut changed = 0usize;
    for part in parts {
        changed = changed.saturating_add(usize::from(put_part(alloc, new, *part)?));
    }
    Ok(changed)
}

/// Writes new lines into the file of this path. Returns whether it could be written; where it couldn't, it is as it was, and the reason is
/// reported on standard error.
fn write_lines<R: AllocGlobal + Files + Eprint>(
    rt: &R,
    path: &str,
    new: &NewLines,
) -> io::Result<bool> {
    let text = new.text(rt.alloc())?;
    match replace_text(rt, path, text.as_str()) {
        Ok(()) => Ok(true),
        Err(TextFault::OutOfMemory) => Err(io::Error::from(io::ErrorKind::OutOfMemory)),
        Err(fault) => {
            let _ = eprintln!(rt; "scenario: {path}: not written: {fault}");
            Ok(false)
        }
    }
}

/// Writes the transcripts of all runs into a file, and reports how many changed. Returns whether the file could be written.
pub(crate) fn write_in_place<R: AllocGlobal + Files + Print + Eprint>(
    rt: &R,
    file: &ScenarioFile<'_>,
    parts: &[Part<'_>],
) -> io::Result<bool> {
    let mut new = NewLines::of(rt.alloc(), file.text.as_str())?;
    let changed = put_parts(rt.alloc(), &mut new, parts)?;
    if changed > 0 && !write_lines(rt, file.path, &new)? {
        return Ok(false);
    }
    println!(rt;
        "{}: {changed} of {} transcripts put in place",
        file.path,
        parts.len()
    )?;
    Ok(true)
}
