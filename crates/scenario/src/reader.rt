//! Reads the run of a part of a file.

use crate::fault::Fault;
use crate::network::NetworkLines;
use crate::scenario::Scenario;
use mote_kit::run_file::{self, Line, Part};
use std::alloc::{AllocError, Global};

/// A malformed line of a file.
#[derive(Clone, Copy, Drop)]
pub(crate) struct Misread<'a> {
    /// Its number, from 1 on.
    pub(crate) line: usize,
    pub(crate) fault: Fault<'a>,
}

impl<'a> From<run_file::Misread<'a>> for Misread<'a> {
    fn from(misread: run_file::Misread<'a>) -> Self {
        Misread {
            line: misread.line,
            fault: Fault::File(misread.fault),
        }
    }
}

/// Reads all lines of a part.
fn read_lines<'a>(
    alloc: Global,
    part: Part<'a>,
    scenario: &mut Scenario<'a>,
    network: &mut NetworkLines,
) -> Result<(), Misread<'a>> {
    let mut line = part.first_line;
    for text in part.lines.split('\n') {
        if let Err(fault) = scenario.read_line(alloc, network, Line::of(line, 1, text)) {
            return Err(Misread { line, fault });
        }
        line = line.saturating_add(1);
    }
    match scenario.run.misread_size() {
        Some(misread) => Err(Misread::from(misread)),
        None => Ok(()),
    }
}

/// The run of a part of a file.
///
/// # Errors
///
/// The first malformed line; otherwise the line of a size with which no mote boots, where the file doesn't say that none
/// does.
pub(crate) fn read_scenario<'a>(
    alloc: Global,
    part: Part<'a>,
) -> Result<Scenario<'a>, Misread<'a>> {
    let mut scenario = Scenario::new(alloc, part.first_line);
    let mut network = NetworkLines::new(alloc);
    match read_lines(alloc, part, &mut scenario, &mut network) {
        Ok(()) => Ok(scenario),
        Err(misread) => Err(misread),
    }
}

/// The run of a part whose lines are known to be well-formed.
///
/// # Errors
///
/// `AllocError` where memory was refused.
pub(crate) fn reread_scenario<'a>(
    alloc: Global,
    part: Part<'a>,
) -> Result<Scenario<'a>, AllocError> {
    match read_scenario(alloc, part) {
        Ok(scenario) => Ok(scenario),
        Err(_) => Err(AllocError),
    }
}
