//! The files that arguments name: reads them, and checks whether they are well-formed.

use crate::fault::Fault;
use crate::options::Wish;
use crate::reader::{Misread, read_scenario, reread_scenario};
use crate::runs::execute_runs;
use crate::writing::write_in_place;
use mote_kit::run_file::{Part, flaw_at, json_of, parts_of, plain_text};
use mote_kit::text_file::{TextFault, read_text};
use std::alloc::Global;
use std::io;
use std::rt::Files;

/// A file that was read, and is well-formed.
#[derive(Drop)]
pub(crate) struct ScenarioFile<'a> {
    pub(crate) path: &'a str,
    pub(crate) text: String,
    /// The text with numbers and hex instead of names and quotes, line by line.
    plain: String,
}

/// The text of the file of this path, or nothing where it can't be read or isn't UTF-8: the reason is reported on standard error.
fn text_at<R: AllocGlobal + Files + Eprint>(rt: &R, path: &str) -> io::Result<Option<String>> {
    match read_text(rt, path) {
        Ok(text) => Ok(Some(text)),
        Err(TextFault::OutOfMemory) => Err(io::Error::from(io::ErrorKind::OutOfMemory)),
        Err(fault) => {
            let _ = eprintln!(rt; "scenario: {path}: {fault}");
            Ok(None)
        }
    }
}

/// Checks whether each line of a file is well-formed.
fn check<'a>(alloc: Global, path: &'a str, plain: &'a str) -> Result<(), Misread<'a>> {
    let parts = parts_of(alloc, path, plain)?;
    for part in &parts {
        read_scenario(alloc, *part)?;
    }
    Ok(())
}

/// A fault of a line, or of its letters, where something is wrong with those.
fn sooner_seen<'a>(plain: &str, misread: Misread<'a>) -> Fault<'a> {
    match flaw_at(plain, misread.line) {
        Some(flaw) if misread.fault.is_of_words() => Fault::of_rule(flaw.text()),
        _ => misread.fault,
    }
}

/// Whether each line of a file is well-formed. Otherwise reports the first malformed one on standard error.
fn is_well_formed<R: AllocGlobal + Eprint>(rt: &R, path: &str, plain: &str) -> io::Result<bool> {
    match check(rt.alloc(), path, plain) {
        Ok(()) => Ok(true),
        Err(misread) if misread.fault.is_out_of_memory() => {
            Err(io::Error::from(io::ErrorKind::OutOfMemory))
        }
        Err(misread) => {
            let fault = sooner_seen(plain, misread);
            let _ = eprintln!(rt; "scenario: {path}: line {}: {fault}", misread.line);
            Ok(false)
        }
    }
}

/// Writes what the file says of its runs, as JSON, a line for each. Returns true.
fn write_records<R: AllocGlobal + Print>(rt: &R, parts: &[Part<'_>]) -> io::Result<bool> {
    for part in parts {
        let scenario = reread_scenario(rt.alloc(), *part)?;
        let json = json_of(rt.alloc(), *part, &scenario.run)?;
        println!(rt; "{}", json.as_str())?;
    }
    Ok(true)
}

impl<'a> ScenarioFile<'a> {
    /// The file of this path. Where it can't be read, or isn't well-formed, reports the reason on standard error.
    pub(crate) fn read<R: AllocGlobal + Files + Eprint>(
        rt: &R,
        path: &'a str,
    ) -> io::Result<Option<Self>> {
        let Some(text) = text_at(rt, path)? else {
            return Ok(None);
        };
        let plain = plain_text(rt.alloc(), text.as_str())?;
        if is_well_formed(rt, path, plain.as_str())? {
            Ok(Some(ScenarioFile { path, text, plain }))
        } else {
            Ok(None)
        }
    }

    /// Does with the file what is wished. Returns whether all came out as the file says, or could be written.
    pub(crate) fn process<R: AllocGlobal + Files + Print + Eprint>(
        &self,
        rt: &R,
        wish: Wish,
    ) -> io::Result<bool> {
        let Ok(parts) = parts_of(rt.alloc(), self.path, self.plain.as_str()) else {
            return Err(io::Error::from(io::ErrorKind::OutOfMemory));
        };
        if wish.writes {
            write_in_place(rt, self, parts.as_slice())
        } else if wish.records {
            write_records(rt, parts.as_slice())
        } else {
            execute_runs(rt, self.path, parts.as_slice(), wish)
        }
    }
}
