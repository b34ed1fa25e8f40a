//! The script of a run, line by line, and the clock that it reaches.

ghost use Rattle.std.specs.Prelude.{◌≡◌, ◌++◌, ◌↔◌, [], false, string_bytes, OnOk, IfErr};
ghost use Rattle.mote_kit.specs.NewLines.{repeated};

use crate::run_file::fault::{Fault, WordFault};
use crate::run_file::line::Line;
use crate::run_file::rule;
use mote_text::by_value::read_input;
use mote_types::entry::Input;
use std::alloc::{AllocError, Global};

/// The largest number of bytes of a line, without its end, that can arrive on the serial line at once.
const LONGEST_TEXT: usize = 255;

/// A script that grows.
#[derive(Drop)]
pub(crate) struct Inputs {
    script: String,
    /// The ticks of its lines in all.
    clock: u64,
    /// Whether it has its last line, which has no line end.
    has_ended: bool,
}

impl Inputs {
    pub(crate) fn new(alloc: Global) -> Self
        ensures script { string_bytes result.script ≡ [] }
        ensures clock { result.clock ≡ 0 }
        ensures open { result.has_ended ≡ false }
    {
        Inputs {
            script: String::new(alloc),
            clock: 0,
            has_ended: false,
        }
    }

    /// The script so far.
    pub(crate) fn script(&self) -> &str
        ensures { result.now ≡ string_bytes self.now.script }
    {
        self.script.as_str()
    }

    /// Appends the line of the script that a line of a file says.
    ///
    /// # Errors
    ///
    /// `Unknown` where the line says none.
    pub(crate) fn read_line<'a>(&mut self, alloc: Global, line: Line<'a>) -> Result<(), Fault<'a>> {
        match line.word {
            "script" => self.push(line.count, line.rest),
            "tick" | "serial" | "frame" if input_of(line.text).is_some() => {
                self.push(line.count, line.text)
            }
            "tick" | "serial" | "frame" => Err(Fault::Word(WordFault::NoScriptLine, line.text)),
            "text" => self.push(line.count, serial_line(alloc, line.rest)?.as_str()),
            "mote" => Err(Fault::Rule(rule::NETWORK_ABOVE)),
            _ => Err(Fault::Word(WordFault::Unknown, line.word)),
        }
    }

    /// Appends a line a number of times.
    pub(crate) fn push<'a>(&mut self, count: u32, line: &str) -> Result<(), Fault<'a>>
        ensures script { OnOk result (string_bytes self.new.script ≡ string_bytes self.old.script ++ repeated count line.now) }
        ensures open { OnOk result (self.old.has_ended ≡ false) }
        ensures same_end { self.new.has_ended ≡ self.old.has_ended }
        ensures fails { IfErr result (λ fault. (fault ≡ Fault.OutOfMemory) ↔ (self.old.has_ended ≡ false)) }
    {
        if self.has_ended {
            return Err(Fault::Rule(rule::LAST_LINE));
        }
        let ticks = ticks_of(line).saturating_mul(u64::from(count));
        self.clock = self.clock.saturating_add(ticks);
        push_lines(&mut self.script, count, line)?;
        Ok(())
    }

    /// Appends the script's last line, with no line end.
    pub(crate) fn end_with<'a>(&mut self, line: &str) -> Result<(), Fault<'a>> {
        if self.has_ended {
            return Err(Fault::Rule(rule::LAST_LINE));
        }
        self.has_ended = true;
        self.script.push_str(line)?;
        Ok(())
    }

    /// Appends the ticks that are left up to this clock, and nothing where it has been reached.
    pub(crate) fn advance_to<'a>(&mut self, alloc: Global, word: &'a str) -> Result<(), Fault<'a>> {
        let clock = clock_in(word).ok_or(Fault::Word(WordFault::NoClock, word))?;
        let Some(left) = clock.checked_sub(self.clock) else {
            return Err(Fault::ClockIsPast(self.clock));
        };
        match u32::try_from(left) {
            Ok(0) => Ok(()),
            Ok(left) => self.push(1, format!(in alloc; "tick {left}")?.as_str()),
            Err(_) => Err(Fault::Rule(rule::MOST_TICKS)),
        }
    }
}

/// The clock of a word: a number with no sign and no needless leading 0.
fn clock_in(word: &str) -> Option<u64> {
    if word.starts_with('+') || word.len() > 1 && word.starts_with('0') {
        return None;
    }
    word.parse::<u64>().ok()
}

/// The input that a line of a script is, if it is one.
fn input_of(line: &str) -> Option<Input> {
    read_input(line.as_bytes()).ok()?
}

/// The ticks of a line of a script.
fn ticks_of(line: &str) -> u64 {
    match input_of(line) {
        Some(Input::Tick(ticks)) => u64::from(ticks),
        _ => 0,
    }
}

/// The line of a script by which this text and a line end arrive on the serial line.
fn serial_line<'a>(alloc: Global, text: &str) -> Result<String, Fault<'a>> {
    if text.len() > LONGEST_TEXT {
        return Err(Fault::Rule(rule::LONGEST_TEXT));
    }
    let digits = hex::encode(alloc, text.as_bytes())?;
    Ok(format!(in alloc; "serial {}0a", digits.as_str())?)
}

/// Appends a line a number of times.
pub(crate) fn push_lines(text: &mut String, count: u32, line: &str) -> Result<(), AllocError>
    ensures { OnOk result (string_bytes text.new ≡ string_bytes text.old ++ repeated count line.now) }
{
    for _ in 0..count {
        text.push_str(line)?;
        text.push('\n')?;
    }
    Ok(())
}
