//! A run of a file, with its applications. `docs/scenarios.md` has the format.

use crate::acts::Acts;
use crate::fault::Fault;
use crate::network::NetworkLines;
use mote_kit::run_file::{Line, ROWS_ABOVE, Unread, WordFault, WrittenRun};
use pictures::network::read_network_line;
use pictures::transcript::line::read_line;
use std::alloc::Global;

/// What is run, and the expected result.
#[derive(Drop)]
pub(crate) struct Scenario<'a> {
    pub(crate) run: WrittenRun<'a>,
    pub(crate) applications: Vec<Acts>,
}

impl<'a> Scenario<'a> {
    /// A run whose first line has this number, and of which no line was read.
    pub(crate) fn new(alloc: Global, first_line: usize) -> Self {
        Scenario {
            run: WrittenRun::new(alloc, first_line),
            applications: Vec::new(alloc),
        }
    }

    /// Reads a line. The lines above it have set this network up, if it is that of a network.
    pub(crate) fn read_line(
        &mut self,
        alloc: Global,
        network: &mut NetworkLines,
        line: Line<'a>,
    ) -> Result<(), Fault<'a>> {
        match self.run.read_line(alloc, line)? {
            None => Ok(()),
            Some(Unread::Application(line)) => self.read_application(alloc, line),
            Some(Unread::Row(row)) => self.read_row(alloc, row),
            Some(Unread::OfNetwork(line)) => {
                let input = network.read_line(alloc, line)?;
                Ok(self.run.push_input(line.count, input)?)
            }
            Some(Unread::Shown(line)) => self.read_shown(line),
        }
    }

    fn read_application(&mut self, alloc: Global, line: Line<'a>) -> Result<(), Fault<'a>> {
        self.applications.push(Acts::of(alloc, line)?)?;
        Ok(())
    }

    /// Reads a row of the last application.
    fn read_row(&mut self, alloc: Global, row: &'a str) -> Result<(), Fault<'a>> {
        match self.applications.last_mut() {
            Some(acts) => acts.read_row(alloc, row),
            None => Err(Fault::of_rule(ROWS_ABOVE)),
        }
    }

    /// Reads a line of the transcript.
    fn read_shown(&mut self, line: Line<'a>) -> Result<(), Fault<'a>> {
        let is_well_formed = if self.run.is_network() {
            read_network_line(line.text).is_some()
        } else {
            read_line(line.text).is_some()
        };
        if !is_well_formed {
            return Err(Fault::of_word(WordFault::NoTranscriptLine, line.text));
        }
        Ok(self.run.push_shown(line)?)
    }
}
