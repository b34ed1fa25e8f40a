//! A program's report of its outcome, and the status that it exits with.

ghost use Rattle.std.specs.Prelude.{◌≡◌, IfErr, IfOk};
ghost use Rattle.std.specs.Process.{exit_status};
ghost use Rattle.command_line.specs.Statuses.{IsShown, IsStatusOf, status_of_failure, status_of_outcome, stream_of_failure};

use crate::failure::{Failure, status_of};
use crate::program::Program;
use mote_text::script::End;
use mote_types::fault::RunFault;
use std::fmt;
use std::process::ExitCode;

/// Where a program writes the text of a failure.
#[derive(Clone, Copy, Debug, PartialEq, Eq, Drop)]
pub enum Stream {
    /// Standard output.
    Output,
    /// Standard error.
    Error,
}

impl Failure<'_> {
    /// Where the text of the failure belongs: standard output for a help or a version that the arguments ask for, otherwise
    /// standard error.
    pub fn stream(&self) -> Stream
        ensures { result ≡ stream_of_failure self.now }
    {
        match self {
            Failure::Request(_) => Stream::Output,
            Failure::NotText
            | Failure::Words(_)
            | Failure::NoApplication(_)
            | Failure::TooManyApplications
            | Failure::Mote(_) => Stream::Error,
        }
    }
}

/// The whole text that a program writes of a failure: the parser's, or a line with the program's name and the reason.
#[derive(Drop)]
pub struct Report<'a, 'b> {
    program: &'static str,
    failure: &'a Failure<'b>,
}

impl Program {
    /// The text that this program writes of a failure.
    pub fn report<'a, 'b>(self, failure: &'a Failure<'b>) -> Report<'a, 'b>
        ensures program { result.program.now ≡ self.name.now }
        ensures failure { result.failure.now ≡ failure.now }
    {
        Report {
            program: self.name,
            failure,
        }
    }
}

impl fmt::Display for Report<'_, '_> {
    ghost use Rattle.command_line.specs.Statuses.{reported_text};

    ghost output = { λ report. reported_text report.program.now report.failure.now };

    fn fmt<W: fmt::Write>(&self, f: &mut fmt::Formatter<W>) -> fmt::Result {
        match self.failure {
            Failure::Request(text) | Failure::Words(text) => write!(f, "{text}"),
            failure => writeln!(f, "{}: {failure}", self.program),
        }
    }
}

/// Writes what the arguments ask for, the help or the version, to standard output.
fn show<'a, R: Print>(rt: &R, outcome: Result<End, Failure<'a>>) -> Result<End, Failure<'a>>
    ensures { IsShown outcome.entry result }
{
    if let Err(Failure::Request(text)) = &outcome {
        print!(rt; "{text}").map_err(|_| RunFault::Write)?;
    }
    outcome
}

/// Reports a failure on standard error, and returns the status of the outcome. Where standard error fails too, nothing
/// is reported.
fn report_failure<R: Eprint>(rt: &R, program: Program, outcome: Result<End, Failure<'_>>) -> u8
    ensures { result ≡ status_of_outcome outcome.entry }
{
    if let Err(failure) = &outcome {
        let report = program.report(failure);
        let _ = match failure.stream() {
            // It was written there.
            Stream::Output => Ok(()),
            Stream::Error => eprint!(rt; "{report}"),
        };
    }
    status_of(&outcome)
}

/// Reports the outcome of the arguments, and returns the status that the program exits with: that of the outcome, unless a text
/// that they ask for can't be written.
pub fn finish<R: Print + Eprint>(rt: &R, program: Program, outcome: Result<End, Failure<'_>>) -> u8
    ensures { IsStatusOf outcome.entry result }
{
    report_failure(rt, program, show(rt, outcome))
}

/// The exit code of a status, or of a failure before the arguments were read, which is reported.
pub fn exit_code<R: Eprint>(
    rt: &R,
    program: Program,
    outcome: Result<u8, Failure<'static>>,
) -> ExitCode
    ensures status { IfOk outcome.entry (λ status. exit_status result ≡ status) }
    ensures failure { IfErr outcome.entry (λ failure. exit_status result ≡ status_of_failure failure) }
{
    match outcome {
        Ok(status) => ExitCode::from(status),
        Err(failure) => ExitCode::from(report_failure(rt, program, Err(failure))),
    }
}
