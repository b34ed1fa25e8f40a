//! Why the program ends before its run, or in the middle of it.

ghost use Rattle.std.specs.Prelude.{◌≡◌};
ghost use Rattle.command_line.specs.Statuses as statuses;
ghost use Rattle.command_line.specs.Statuses.{status_of_failure, status_of_outcome};

use crate::refusal::{ParserText, Refusal};
use clap::Error;
use mote_text::script::End;
use mote_types::fault::{BootFault, MoteFault, RunFault};
use std::alloc::{AllocError, AllocFailed};
use std::fmt;

/// What the program reports instead of a run, or of its end: on standard error, and only what the arguments asked for
/// on standard output.
#[derive(Drop)]
pub enum Failure<'a> {
    /// An argument is not text in UTF-8.
    NotText,
    /// The arguments ask for the help or the version: the text of it.
    Request(ParserText),
    /// The parser refuses the arguments: its text.
    Words(ParserText),
    /// No application has this name.
    NoApplication(&'a str),
    TooManyApplications,
    /// What ends a mote's run, or the same of the program itself: memory was refused, standard input or output failed.
    Mote(MoteFault),
}

/// The status that the program exits with after this fault.
fn status_of_fault(fault: MoteFault) -> u8
    ensures { result ≡ statuses.status_of_fault fault }
{
    match fault {
        MoteFault::Boot(BootFault::BadSizes) => 64,
        MoteFault::Boot(BootFault::Memory) => 70,
        MoteFault::Run(RunFault::Read) => 5,
        MoteFault::Run(RunFault::Write) => 6,
    }
}

impl Failure<'_> {
    /// The status that the program exits with: 0 where the arguments asked only for a text, 64 for invalid arguments, 70
    /// where memory was refused, 5 and 6 where standard input and output failed.
    pub fn status(&self) -> u8
        ensures { result ≡ status_of_failure self.now }
    {
        match self {
            Failure::Request(_) => 0,
            Failure::NotText
            | Failure::Words(_)
            | Failure::NoApplication(_)
            | Failure::TooManyApplications => 64,
            Failure::Mote(fault) => status_of_fault(*fault),
        }
    }
}

impl fmt::Display for Failure<'_> {
    ghost use Rattle.command_line.specs.Statuses.{failure_text};

    ghost output = { failure_text };

    fn fmt<W: fmt::Write>(&self, f: &mut fmt::Formatter<W>) -> fmt::Result {
        match self {
            Failure::NotText => f.write_str("a word is not text"),
            Failure::Request(text) | Failure::Words(text) => write!(f, "{text}"),
            Failure::NoApplication(name) => write!(f, "no application {name}"),
            Failure::TooManyApplications => f.write_str("too many applications"),
            Failure::Mote(MoteFault::Boot(BootFault::BadSizes)) => f.write_str("bad sizes"),
            Failure::Mote(MoteFault::Boot(BootFault::Memory)) => f.write_str("out of memory"),
            Failure::Mote(MoteFault::Run(RunFault::Read)) => f.write_str("read failed"),
            Failure::Mote(MoteFault::Run(RunFault::Write)) => f.write_str("write failed"),
        }
    }
}

impl From<MoteFault> for Failure<'_> {
    ghost use Rattle.command_line.specs.declared.failure.Failure.TheVariants.{Mote};

    ghost from_gives = { λ fault failure. failure ≡ Mote fault };

    fn from(fault: MoteFault) -> Self {
        Failure::Mote(fault)
    }
}

impl From<BootFault> for Failure<'_> {
    ghost use Rattle.command_line.specs.declared.failure.Failure.TheVariants.{Mote};
    ghost use Rattle.mote_types.specs.declared.fault.MoteFault.TheVariants.{Boot};

    ghost from_gives = { λ fault failure. failure ≡ Mote (Boot fault) };

    fn from(fault: BootFault) -> Self {
        Failure::Mote(MoteFault::Boot(fault))
    }
}

impl From<RunFault> for Failure<'_> {
    ghost use Rattle.command_line.specs.declared.failure.Failure.TheVariants.{Mote};
    ghost use Rattle.mote_types.specs.declared.fault.MoteFault.TheVariants.{Run};

    ghost from_gives = { λ fault failure. failure ≡ Mote (Run fault) };

    fn from(fault: RunFault) -> Self {
        Failure::Mote(MoteFault::Run(fault))
    }
}

impl<T: Drop> From<AllocFailed<T>> for Failure<'_> {
    ghost use Rattle.command_line.specs.Statuses.{out_of_memory};

    ghost from_gives = { λ _ failure. failure ≡ out_of_memory };

    fn from(_error: AllocFailed<T>) -> Self {
        Failure::from(BootFault::Memory)
    }
}

impl From<AllocError> for Failure<'_> {
    ghost use Rattle.command_line.specs.Statuses.{out_of_memory};

    ghost from_gives = { λ _ failure. failure ≡ out_of_memory };

    fn from(_error: AllocError) -> Self {
        Failure::from(BootFault::Memory)
    }
}

impl<'a> From<Refusal<'a>> for Failure<'a> {
    ghost use Rattle.command_line.specs.Statuses.{failure_in_words};

    ghost from_gives = { λ refusal failure. failure ≡ failure_in_words refusal };

    fn from(refusal: Refusal<'a>) -> Self {
        match refusal {
            Refusal::Request(text) => Failure::Request(text),
            Refusal::Words(text) => Failure::Words(text),
            Refusal::NoApplication(name) => Failure::NoApplication(name),
            Refusal::TooManyApplications => Failure::TooManyApplications,
            Refusal::OutOfMemory => Failure::from(BootFault::Memory),
        }
    }
}

impl From<Error> for Failure<'_> {
    ghost use Rattle.command_line.specs.CommandLine.{refusal_in_words};
    ghost use Rattle.command_line.specs.Statuses.{failure_in_words};

    ghost from_gives = { λ error failure. failure ≡ failure_in_words (refusal_in_words error) };

    fn from(error: Error) -> Self {
        Failure::from(Refusal::from(error))
    }
}

/// The status that the program exits with after a run that ended.
fn status_of_end(end: End) -> u8
    ensures { result ≡ statuses.status_of_end end }
{
    match end {
        End::Finished => 0,
        End::BadLine(_) => 2,
        End::Halted => 3,
        End::TooLong => 4,
    }
}

/// The status that the program exits with.
pub fn status_of(outcome: &Result<End, Failure<'_>>) -> u8
    ensures { result ≡ status_of_outcome outcome.now }
{
    match outcome {
        Ok(end) => status_of_end(*end),
        Err(failure) => failure.status(),
    }
}
