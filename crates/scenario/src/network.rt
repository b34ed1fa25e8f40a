//! The lines of a run of a network.

use crate::fault::Fault;
use call_lists::{Application, CallFault};
use mote_kit::run_file::{self, Line, WordFault, begins_with_digit, setup_form};
use mote_text::script::LINE_LIMIT;
use network_setup::fault::LineFault;
use network_setup::setup::Setup;
use network_steps::input::{NetworkInput, read_network_input};
use std::alloc::{AllocError, Global};

/// A line breaks this rule that has more bytes than `network` reads.
const LONGEST_LINE: &str = "a line of a network's script has at most 1024 bytes";

/// The network that the lines of a script have set up so far.
#[derive(Drop)]
pub(crate) struct NetworkLines {
    setup: Setup,
    /// Whether there is an input: after it no line sets anything up.
    has_input: bool,
}

/// Whether a text begins with a letter of ASCII.
fn begins_with_letter(text: &str) -> bool {
    matches!(text.as_bytes().first(), Some(b'a'..=b'z' | b'A'..=b'Z'))
}

/// What is wrong with the words of a mote, if that is one of its applications.
fn fault_of_mote(text: &str) -> Option<CallFault<'_>> {
    let (words, calls) = text.split_once(" calls ").unwrap_or((text, ""));
    for word in words.split(' ') {
        if begins_with_letter(word) {
            if let Err(fault) = Application::named(word) {
                return Some(fault);
            }
        }
    }
    Application::listed(calls).err()
}

/// What is wrong with a malformed line that sets something up, and should have this form.
fn fault_of_form<'a>(line: Line<'a>, form: &'static str) -> Fault<'a> {
    if line.word != "mote" {
        return Fault::of_form(form);
    }
    match fault_of_mote(line.rest) {
        Some(fault) => Fault::Call(fault),
        None => Fault::of_form(form),
    }
}

impl NetworkLines {
    pub(crate) fn new(alloc: Global) -> Self {
        NetworkLines {
            setup: Setup::new(alloc),
            has_input: false,
        }
    }

    /// The line of the script that a line of a file says. After `script` it may be malformed.
    ///
    /// # Errors
    ///
    /// `Unknown` where the line is neither an input nor sets anything up.
    pub(crate) fn read_line<'a>(
        &mut self,
        alloc: Global,
        line: Line<'a>,
    ) -> Result<&'a str, Fault<'a>> {
        if line.word == "script" {
            let _ = self.take(alloc, Line::of(line.number, line.count, line.rest));
            return Ok(line.rest);
        }
        self.take(alloc, line)?;
        Ok(line.text)
    }

    fn take<'a>(&mut self, alloc: Global, line: Line<'a>) -> Result<(), Fault<'a>> {
        match setup_form(line) {
            Some(_) if self.has_input => Err(Fault::of_word(WordFault::AfterInput, line.word)),
            Some(_) if line.text.len() > LINE_LIMIT => Err(Fault::of_rule(LONGEST_LINE)),
            Some(form) => self.set_up(alloc, line, form),
            None => self.take_input(line),
        }
    }

    /// Sets up what a line says, which should have this form.
    fn set_up<'a>(
        &mut self,
        alloc: Global,
        line: Line<'a>,
        form: &'static str,
    ) -> Result<(), Fault<'a>> {
        for _ in 0..line.count {
            match self.setup.take_line(alloc, line.text) {
                Ok(()) => {}
                Err(LineFault::Memory) => return Err(Fault::from(AllocError)),
                Err(LineFault::Malformed) => return Err(fault_of_form(line, form)),
            }
        }
        Ok(())
    }

    fn take_input<'a>(&mut self, line: Line<'a>) -> Result<(), Fault<'a>> {
        match read_network_input(line.text.as_bytes()) {
            Some(NetworkInput::ForMote(number, _)) if !self.has_mote(number) => {
                Err(Fault::File(run_file::Fault::NoMote(number)))
            }
            Some(_) => {
                self.has_input = true;
                Ok(())
            }
            None if line.word == "tick" || begins_with_digit(line.word) => {
                Err(Fault::of_word(WordFault::NoScriptLine, line.text))
            }
            None => Err(Fault::of_word(WordFault::Unknown, line.word)),
        }
    }

    fn has_mote(&self, number: u32) -> bool {
        0 < number && number as usize <= self.setup.motes.len()
    }
}
