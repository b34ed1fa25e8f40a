//! Why arguments are invalid.

ghost use Rattle.std.specs.Prelude.{◌≡◌};

use clap::Error;
use clap::error::ErrorKind;
use std::fmt;

/// A text that the parser writes instead of accepting the arguments, with its line ends.
#[derive(Drop)]
pub struct ParserText {
    pub error: Error,
}

impl fmt::Display for ParserText {
    fn fmt<W: fmt::Write>(&self, f: &mut fmt::Formatter<W>) -> fmt::Result {
        self.error.fmt(f)
    }
}

/// Why arguments are invalid.
#[derive(Drop)]
pub enum Refusal<'a> {
    /// The arguments ask for the help or the version: the text of it.
    Request(ParserText),
    /// The parser refuses the arguments: its text.
    Words(ParserText),
    /// No application has this name.
    NoApplication(&'a str),
    /// There are more than sixteen names.
    TooManyApplications,
    OutOfMemory,
}

impl From<Error> for Refusal<'_> {
    ghost use Rattle.command_line.specs.CommandLine.{refusal_in_words};

    ghost from_gives = { λ error refusal. refusal ≡ refusal_in_words error };

    fn from(error: Error) -> Self {
        match error.kind() {
            ErrorKind::OutOfMemory => Refusal::OutOfMemory,
            ErrorKind::DisplayHelp | ErrorKind::DisplayVersion => Refusal::Request(ParserText {
                error,
            }),
            _ => Refusal::Words(ParserText { error }),
        }
    }
}
