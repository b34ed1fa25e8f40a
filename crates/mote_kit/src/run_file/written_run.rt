//! A run of a file, and what the file says of its outcome.

ghost use Rattle.std.specs.Prelude.{◌≡◌, ◌≢◌, ◌==◌, ◌||◌, ◌↔◌, ◌⊎◌, ◌++◌, ◌∷◌, if◌then◌else◌, [], None, Some, true, false, is_some, option_map, length, not, codes, string_bytes, IfSome, IsSomeAnd, IfOk, IfErr, OnOk, Ok, get_or};
ghost use Rattle.kernel_core.specs.Machine.{is_bootable};
ghost use Rattle.mote_run.specs.Code.Runs.{config_of};
ghost use Rattle.mote_kit.specs.NewLines.{repeated};
ghost use Rattle.mote_kit.specs.Unread.{IsOfRun};

use crate::gaps::GAP;
use crate::mote::Sizes;
use crate::run_file::fault::{Fault, Misread, WordFault, number_of};
use crate::run_file::inputs::{Inputs, push_lines};
use crate::run_file::line::{Line, begins_with_digit};
use crate::run_file::rule;
use crate::run_file::sizes::StatedSizes;
use mote_types::event::MOST_APPLICATIONS;
use std::alloc::Global;

/// How often a line may be repeated.
const MOST_TIMES: u32 = 1_000_000;

/// How a run ends that never begins.
const BAD_SIZES: &str = "bad sizes";

/// A line that only the program knows which executes the run.
#[derive(Clone, Copy, Drop)]
pub enum Unread<'a> {
    /// One more application. Its line is stored.
    Application(Line<'a>),
    /// One more row of the last application: what is after `on`. Its line is stored.
    Row(&'a str),
    /// A line of a network's script: give the input that it is to `push_input`.
    OfNetwork(Line<'a>),
    /// A line of the transcript: give it to `push_shown`, if it is well-formed.
    Shown(Line<'a>),
}

/// A line of a file that is a line of the transcript, or several.
#[derive(Clone, Copy, Drop)]
pub(crate) struct ShownLine {
    /// Its number.
    pub(crate) line: usize,
    /// The number of bytes of the transcript that it makes.
    pub(crate) size: usize,
}

/// The lines of an application.
#[derive(Drop)]
pub(crate) struct WrittenApplication<'a> {
    /// The number of the first.
    line: usize,
    pub(crate) lines: Vec<&'a str>,
}

/// What is run, and the expected result.
#[derive(Drop)]
pub struct WrittenRun<'a> {
    is_network: bool,
    is_quiet: bool,
    /// Whether some line of the transcript matches any lines.
    has_gaps: bool,
    first_line: usize,
    /// The number of the last line that is neither empty nor a comment, or of the one above the first if there is none.
    pub(crate) last_line: usize,
    /// How the run ends, where the file says so apart from the transcript, and the number of that line.
    pub(crate) said_end: Option<(&'a str, usize)>,
    sizes: StatedSizes,
    pub(crate) applications: Vec<WrittenApplication<'a>>,
    inputs: Inputs,
    transcript: String,
    pub(crate) shown: Vec<ShownLine>,
}

impl<'a> WrittenRun<'a> {
    /// A run whose first line has this number, and of which no line was read.
    pub fn new(alloc: Global, first_line: usize) -> Self
        ensures network { result.is_network ≡ false }
        ensures quiet { result.is_quiet ≡ false }
        ensures end { result.said_end ≡ None }
        ensures applications { result.applications.items ≡ [] }
        ensures shown { result.shown.items ≡ [] }
    {
        WrittenRun {
            is_network: false,
            is_quiet: false,
            has_gaps: false,
            first_line,
            last_line: first_line.saturating_sub(1),
            said_end: None,
            sizes: StatedSizes::new(),
            applications: Vec::new(alloc),
            inputs: Inputs::new(alloc),
            transcript: String::new(alloc),
            shown: Vec::new(alloc),
        }
    }

    /// Whether it is a run of a network.
    pub fn is_network(&self) -> bool
        ensures { result ≡ self.now.is_network }
    {
        self.is_network
    }

    /// Whether its transcript is a quiet one.
    pub fn is_quiet(&self) -> bool
        ensures { result ≡ self.now.is_quiet }
    {
        self.is_quiet
    }

    /// The sizes of its mote.
    pub fn sizes(&self) -> Sizes
        ensures { result ≡ self.now.sizes.sizes }
    {
        self.sizes.sizes
    }

    /// Its script, as far as it was read.
    pub fn script(&self) -> &str
        ensures { result.now ≡ string_bytes self.now.inputs.script }
    {
        self.inputs.script()
    }

    /// Whether the file has an expected result of the run.
    pub fn has_result(&self) -> bool
        ensures { result ≡ (is_some self.now.said_end || not (length (string_bytes self.now.transcript) == 0)) }
    {
        self.said_end.is_some() || !self.transcript.is_empty()
    }

    /// The transcript that the file has of the run, which may be empty.
    pub(crate) fn transcript(&self) -> &str
        ensures { result.now ≡ string_bytes self.now.transcript }
    {
        self.transcript.as_str()
    }

    /// The transcript that the file has of the run, if it has one.
    pub(crate) fn transcript_shown(&self) -> Option<&str>
        ensures { option_map (λ text. text.now) result
            ≡ (if length (string_bytes self.now.transcript) == 0 then None else Some (string_bytes self.now.transcript)) }
    {
        if self.transcript.is_empty() {
            None
        } else {
            Some(self.transcript.as_str())
        }
    }

    /// Whether some line of the transcript matches any lines.
    pub(crate) fn has_gaps(&self) -> bool
        ensures { result ≡ self.now.has_gaps }
    {
        self.has_gaps
    }

    /// How the run must end: as the file says, otherwise as the transcript's last line does. None where that matches any lines.
    pub(crate) fn end(&self) -> Option<&str>
        ensures said { IfSome self.now.said_end (λ said. IsSomeAnd result (λ end. end.now ≡ said.0.now)) }
        ensures shown { self.now.said_end ≡ None → IfSome result (λ end. end.now ≢ codes "bad sizes") }
    {
        match self.said_end {
            Some((end, _)) => Some(end),
            None => end_shown(self.transcript.as_str()),
        }
    }

    /// The line by which no mote boots, where the file doesn't say so.
    pub fn misread_size(&self) -> Option<Misread<'a>>
        ensures { (result ≡ None) ↔ (IsSomeAnd self.now.said_end (λ said. said.0.now ≡ codes "bad sizes")
            ⊎ (is_bootable (config_of self.now.sizes.sizes (length self.now.applications.items)) ≡ true)) }
    {
        if self.end() == Some(BAD_SIZES) {
            return None;
        }
        match self.applications.get(usize::from(MOST_APPLICATIONS)) {
            Some(application) => Some(Misread {
                line: application.line,
                fault: Fault::Rule(rule::MOST_APPLICATIONS),
            }),
            None => self.sizes.misread(self.applications.len()),
        }
    }

    /// Reads a line. Returns it where only the program knows it which executes the run.
    ///
    /// # Errors
    ///
    /// Where the line is malformed.
    pub fn read_line(
        &mut self,
        alloc: Global,
        line: Line<'a>,
    ) -> Result<Option<Unread<'a>>, Fault<'a>>
        ensures skipped { ((line.entry.text.now ≡ []) ⊎ (get_or line.entry.text.now 0 0 ≡ 35)) → (result ≡ Ok None) × (self.new ≡ self.old) }
        ensures last_line { (self.new ≡ self.old) ⊎ (self.new.last_line ≡ line.entry.number) }
        ensures kind { IfOk result (λ unread. IfSome unread (λ line. IsOfRun self.new.is_network line)) }
    {
        if line.text.is_empty() || line.text.starts_with('#') {
            return Ok(None);
        }
        let is_first = self.last_line < self.first_line;
        self.last_line = line.number;
        if line.word == "times" {
            self.repeat(alloc, line)
        } else if line.text == GAP {
            self.has_gaps = true;
            self.push_shown(line)?;
            Ok(None)
        } else if self.read_word(alloc, line, is_first)? {
            Ok(None)
        } else if self.is_network {
            self.append(alloc, line)
        } else {
            self.read_line_of_mote(alloc, line)
        }
    }

    /// Reads a line that the run of a mote and that of a network may have. Returns whether it is one.
    fn read_word(
        &mut self,
        alloc: Global,
        line: Line<'a>,
        is_first: bool,
    ) -> Result<bool, Fault<'a>>
        ensures last_line { self.new.last_line ≡ self.old.last_line }
    {
        let read = match line.word {
            "network" => self.begin_network(line, is_first),
            "last" => self.inputs.end_with(line.rest),
            "at" => self.inputs.advance_to(alloc, line.rest),
            "quiet" => self.set_quiet(line),
            "ends" => self.set_end(line),
            "==" => Err(Fault::Rule(rule::NAME)),
            _ => return Ok(false),
        };
        read?;
        Ok(true)
    }

    /// Reads what only the run of a mote has, and otherwise a line of the script or the transcript.
    fn read_line_of_mote(
        &mut self,
        alloc: Global,
        line: Line<'a>,
    ) -> Result<Option<Unread<'a>>, Fault<'a>>
        ensures last_line { self.new.last_line ≡ self.old.last_line }
        ensures network { self.new.is_network ≡ self.old.is_network }
        ensures kind { self.old.is_network ≡ false → IfOk result (λ unread. IfSome unread (λ line. IsOfRun false line)) }
    {
        match line.word {
            "app" | "calls" | "rows" | "on" => Ok(Some(self.push_application(alloc, line)?)),
            "mmem" | "heap" | "quota" | "header" => {
                self.sizes.read(line)?;
                Ok(None)
            }
            _ => self.append(alloc, line),
        }
    }

    /// From here on the lines are those of a network.
    fn begin_network(&mut self, line: Line<'a>, is_first: bool) -> Result<(), Fault<'a>>
        ensures others { self.new ≡ record self.old { is_network = self.new.is_network } }
    {
        if !line.rest.is_empty() {
            return Err(Fault::Word(WordFault::TakesNoWord, line.word));
        }
        if !is_first {
            return Err(Fault::Rule(rule::NETWORK_FIRST));
        }
        self.is_network = true;
        Ok(())
    }

    /// Stores the line of an application, or of a row of the last one.
    fn push_application(&mut self, alloc: Global, line: Line<'a>) -> Result<Unread<'a>, Fault<'a>>
        ensures last_line { self.new.last_line ≡ self.old.last_line }
        ensures network { self.new.is_network ≡ self.old.is_network }
        ensures kind { IfOk result (λ line. IsOfRun false line) }
    {
        let Some(row) = line.text.strip_prefix("on ") else {
            let mut lines = Vec::new(alloc);
            lines.push(line.text)?;
            self.applications.push(WrittenApplication {
                line: line.number,
                lines,
            })?;
            return Ok(Unread::Application(line));
        };
        match self.applications.last_mut() {
            Some(application) => {
                application.lines.push(line.text)?;
                Ok(Unread::Row(row))
            }
            None => Err(Fault::Rule(rule::ROWS_ABOVE)),
        }
    }

    fn set_quiet(&mut self, line: Line<'a>) -> Result<(), Fault<'a>>
        ensures others { self.new ≡ record self.old { is_quiet = self.new.is_quiet } }
    {
        if !line.rest.is_empty() {
            return Err(Fault::Word(WordFault::TakesNoWord, line.word));
        }
        if self.is_quiet {
            return Err(Fault::Word(WordFault::Twice, line.word));
        }
        self.is_quiet = true;
        Ok(())
    }

    fn set_end(&mut self, line: Line<'a>) -> Result<(), Fault<'a>>
        ensures others { self.new ≡ record self.old { said_end = self.new.said_end } }
    {
        if self.said_end.is_some() {
            return Err(Fault::Word(WordFault::Twice, line.word));
        }
        if !is_end(line.rest) {
            return Err(Fault::Word(WordFault::NoEnd, line.rest));
        }
        self.said_end = Some((line.rest, line.number));
        Ok(())
    }

    /// Appends a line as often as the number before it says.
    fn repeat(&mut self, alloc: Global, line: Line<'a>) -> Result<Option<Unread<'a>>, Fault<'a>>
        ensures last_line { self.new.last_line ≡ self.old.last_line }
        ensures network { self.new.is_network ≡ self.old.is_network }
        ensures kind { IfOk result (λ unread. IfSome unread (λ line. IsOfRun self.old.is_network line)) }
    {
        let (count, text) = line.rest.split_once(' ').unwrap_or((line.rest, ""));
        let count = number_of(count, 1, MOST_TIMES)?;
        self.append(alloc, Line::of(line.number, count, text))
    }

    /// Appends a line to the script of a mote. Returns one of the transcript, or of a network.
    fn append(&mut self, alloc: Global, line: Line<'a>) -> Result<Option<Unread<'a>>, Fault<'a>>
        ensures last_line { self.new.last_line ≡ self.old.last_line }
        ensures network { self.new.is_network ≡ self.old.is_network }
        ensures kind { IfOk result (λ unread. IfSome unread (λ line. IsOfRun self.old.is_network line)) }
    {
        match (self.is_network, is_of_transcript(line, self.is_network)) {
            (_, true) => Ok(Some(Unread::Shown(line))),
            (true, false) => Ok(Some(Unread::OfNetwork(line))),
            (false, false) => {
                self.inputs.read_line(alloc, line)?;
                Ok(None)
            }
        }
    }

    /// Appends a line to the script, a number of times.
    ///
    /// # Errors
    ///
    /// Where the script has its last line.
    pub fn push_input(&mut self, count: u32, line: &str) -> Result<(), Fault<'a>>
        ensures script { OnOk result
            (string_bytes self.new.inputs.script ≡ string_bytes self.old.inputs.script ++ repeated count line.now) }
        ensures open { OnOk result (self.old.inputs.has_ended ≡ false) }
        ensures fails { IfErr result (λ fault. (fault ≡ Fault.OutOfMemory) ↔ (self.old.inputs.has_ended ≡ false)) }
        ensures others { self.new ≡ record self.old { inputs = self.new.inputs } }
    {
        self.inputs.push(count, line)
    }

    /// Appends a line to the transcript.
    ///
    /// # Errors
    ///
    /// `OutOfMemory` alone.
    pub fn push_shown(&mut self, line: Line<'a>) -> Result<(), Fault<'a>>
        ensures transcript { OnOk result
            (string_bytes self.new.transcript ≡ string_bytes self.old.transcript ++ repeated line.entry.count line.entry.text.now) }
        ensures shown { OnOk result (self.new.shown.items ≡ self.old.shown.items
            ++ record { line = line.entry.number; size = length (repeated line.entry.count line.entry.text.now) } ∷ []) }
        ensures memory { IfErr result (λ fault. fault ≡ Fault.OutOfMemory) }
        ensures others { self.new ≡ record self.old { transcript = self.new.transcript; shown = self.new.shown } }
    {
        let begin = self.transcript.len();
        push_lines(&mut self.transcript, line.count, line.text)?;
        self.shown.push(ShownLine {
            line: line.number,
            size: self.transcript.len().saturating_sub(begin),
        })?;
        Ok(())
    }
}

/// Whether a line begins as those of transcripts do.
fn is_of_transcript(line: Line<'_>, is_of_network: bool) -> bool {
    if is_of_network {
        return is_of_network_transcript(line);
    }
    matches!(line.word, ">" | "note" | "halt" | "bad" | "too") || begins_with_digit(line.text)
}

/// Whether a line begins as those of a network's transcript do. A mote's input has `serial` or `frame` after the number, its entries never.
fn is_of_network_transcript(line: Line<'_>) -> bool {
    let (second, _) = line.rest.split_once(' ').unwrap_or((line.rest, ""));
    matches!(
        line.word,
        "=" | "lost" | "full" | "missed" | "halt" | "bad" | "too"
    ) || begins_with_digit(line.text) && !matches!(second, "serial" | "frame")
}

/// Whether a run can end so.
fn is_end(text: &str) -> bool {
    match text.strip_prefix("bad line ") {
        Some(number) => number_of(number, 1, u32::MAX).is_ok(),
        None => matches!(text, "finished" | "halted" | "too long" | BAD_SIZES),
    }
}

/// How the run of a transcript ended, by its last line. None where that matches any lines.
fn end_shown(transcript: &str) -> Option<&str>
    ensures { IfSome result (λ end. end.now ≢ codes "bad sizes") }
{
    let lines = transcript.strip_suffix('\n').unwrap_or(transcript);
    let last = match lines.rsplit_once('\n') {
        Some((_, last)) => last,
        None => lines,
    };
    match last {
        "halt" => Some("halted"),
        "too long" => Some("too long"),
        GAP => None,
        _ if last.starts_with("bad line ") => Some(last),
        _ => Some("finished"),
    }
}
