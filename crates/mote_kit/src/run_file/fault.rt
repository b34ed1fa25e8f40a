//! Why a line of a file is malformed.

ghost use Rattle.std.specs.Prelude.{◌≡◌, ◌≤◌, Some, IfOk};
ghost use Rattle.mote_text.specs.Script.{read_number};
ghost use Rattle.mote_kit.specs.Faults.{may_be_mistyped};

use mote_text::script::read_number;
use std::alloc::{AllocError, AllocFailed};
use std::fmt;

/// What is wrong with a word.
#[derive(Clone, Copy, Drop)]
pub enum WordFault {
    Unknown,
    TakesNoWord,
    NoScriptLine,
    NoTranscriptLine,
    NoClock,
    /// It sets a network up, and is below an input.
    AfterInput,
    NoEnd,
    Twice,
    /// Two runs have this name.
    SameName,
}

impl WordFault {
    /// What a person reads before the word and after it.
    fn around(self) -> (&'static str, &'static str) {
        match self {
            WordFault::Unknown => ("unknown word ", ""),
            WordFault::TakesNoWord => ("", " takes no word"),
            WordFault::NoScriptLine => ("", " is no line of a script"),
            WordFault::NoTranscriptLine => ("", " is no line of a transcript"),
            WordFault::NoClock => ("", " is no clock"),
            WordFault::AfterInput => ("", " sets a network up, and is below an input"),
            WordFault::NoEnd => ("no end of a run: ", ""),
            WordFault::Twice => ("", " is given twice"),
            WordFault::SameName => ("two runs have the name ", ""),
        }
    }
}

/// Why a line of a file is malformed.
#[derive(Clone, Copy, Drop)]
pub enum Fault<'a> {
    Word(WordFault, &'a str),
    NoNumber {
        word: &'a str,
        least: u32,
        most: u32,
    },
    /// It breaks a rule of files, or something is wrong with its letters.
    Rule(&'static str),
    /// It should be another line, which a typing mistake may have spoilt.
    Form(&'static str),
    /// `at` names a clock that has passed: it is this one.
    ClockIsPast(u64),
    NoMote(u32),
    BadSize {
        name: &'static str,
        least: u32,
    },
    OutOfMemory,
}

impl Fault<'_> {
    /// Whether a word is at fault that a typing mistake may have spoilt.
    pub fn is_of_words(&self) -> bool
        ensures { result ≡ may_be_mistyped self.now }
    {
        match self {
            Fault::Word(fault, _) => !matches!(
                fault,
                WordFault::AfterInput | WordFault::Twice | WordFault::SameName
            ),
            _ => matches!(self, Fault::NoNumber { .. } | Fault::Form(_)),
        }
    }
}

impl fmt::Display for Fault<'_> {
    fn fmt<W: fmt::Write>(&self, f: &mut fmt::Formatter<W>) -> fmt::Result {
        let text = match self {
            Fault::Word(fault, word) => {
                let (before, after) = fault.around();
                return write!(f, "{before}{word}{after}");
            }
            Fault::NoNumber { word, least, most } => {
                return write!(f, "{word} is no number from {least} to {most}");
            }
            Fault::ClockIsPast(clock) => return write!(f, "the clock is at {clock} already"),
            Fault::NoMote(number) => return write!(f, "there is no mote {number}"),
            Fault::BadSize { name, least } => {
                return write!(f, "{name} takes a multiple of 4 from {least} to 65536");
            }
            Fault::Rule(text) | Fault::Form(text) => text,
            Fault::OutOfMemory => "out of memory",
        };
        f.write_str(text)
    }
}

impl From<AllocError> for Fault<'_> {
    ghost use Rattle.mote_kit.specs.declared.run_file.fault.Fault.{Fault};

    ghost from_gives = { λ _ fault. fault ≡ Fault.OutOfMemory };

    fn from(_error: AllocError) -> Self {
        Fault::OutOfMemory
    }
}

impl<T: Drop> From<AllocFailed<T>> for Fault<'_> {
    ghost use Rattle.mote_kit.specs.declared.run_file.fault.Fault.{Fault};

    ghost from_gives = { λ _ fault. fault ≡ Fault.OutOfMemory };

    fn from(_error: AllocFailed<T>) -> Self {
        Fault::OutOfMemory
    }
}

/// A malformed line of a file.
#[derive(Clone, Copy, Drop)]
pub struct Misread<'a> {
    /// Its number, from 1 on.
    pub line: usize,
    pub fault: Fault<'a>,
}

impl<T: Drop> From<AllocFailed<T>> for Misread<'_> {
    fn from(_error: AllocFailed<T>) -> Self {
        Misread {
            line: 0,
            fault: Fault::OutOfMemory,
        }
    }
}

/// The number that a word is in decimal, within these bounds.
///
/// # Errors
///
/// `NoNumber` where it is none, or outside.
pub(crate) fn number_of(word: &str, least: u32, most: u32) -> Result<u32, Fault<'_>>
    ensures number { IfOk result (λ number. read_number word.now ≡ Some number) }
    ensures bounds { IfOk result (λ number. (least ≤ number) × (number ≤ most)) }
{
    match read_number(word.as_bytes()) {
        Some(number) if least <= number && number <= most => Ok(number),
        _ => Err(Fault::NoNumber { word, least, most }),
    }
}
