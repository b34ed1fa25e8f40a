//! The applications that lines name.

ghost use Rattle.std.specs.Prelude.{◌<◌, ◌≤◌, length, IfErr, IfNone, IfOk, IfSome};
ghost use Rattle.std.specs.Str.Lines.{lines};
ghost use Rattle.library_core.specs.Outcomes.{AreOfLines, AreRefused, IsOfLine, IsRefusedLine};
ghost use Rattle.library_core.specs.Reasons.{HasCalls, HasNoCalls, IsLineReason, IsNoApplication};

use crate::list_reason::list_reason;
use crate::refusal::{LineReason, Refusal};
use call_lists::Application;
use mote_types::event::MOST_APPLICATIONS;
use std::alloc::Global;

/// The text of calls that a line has, where its first word says that it has one.
fn calls_in(line: &str) -> Option<&str>
    ensures has { IfSome result (λ text. HasCalls line.now text.now) }
    ensures has_none { IfNone result (HasNoCalls line.now) }
{
    if line == "calls" {
        return Some("");
    }
    line.strip_prefix("calls ")
}

/// The application that a line names, or whose calls it has.
///
/// # Errors
///
/// Why it is none.
fn application_of(line: &str) -> Result<Application, LineReason>
    ensures named { IfOk result (IsOfLine line.now) }
    ensures none { IfErr result (λ reason. IsNoApplication line.now × IsLineReason line.now reason) }
{
    match calls_in(line) {
        Some(text) => match Application::listed(text) {
            Ok(application) => Ok(application),
            Err(_) => Err(list_reason(text)),
        },
        None => match Application::named(line) {
            Ok(application) => Ok(application),
            Err(_) => Err(LineReason::NoName),
        },
    }
}

/// The application of a line that follows `count` others.
///
/// # Errors
///
/// `TooManyApplications` where these are 16, and `NoApplication`.
fn next_application(line: &str, count: usize) -> Result<Application, Refusal>
    ensures named { IfOk result (IsOfLine line.now) }
    ensures few { IfOk result (λ _. count < 16) }
    ensures refused { IfErr result (IsRefusedLine line.now count) }
{
    if count >= usize::from(MOST_APPLICATIONS) {
        return Err(Refusal::TooManyApplications);
    }
    match application_of(line) {
        Ok(application) => Ok(application),
        Err(reason) => Err(Refusal::NoApplication(count as u32, reason)),
    }
}

/// The applications of a text, a line for each.
///
/// # Errors
///
/// The first line that names none, or more than 16 applications.
pub fn read_applications(alloc: Global, text: &str) -> Result<Vec<Application>, Refusal>
    ensures of_lines { IfOk result (λ applications. AreOfLines (lines text.now) applications.items) }
    ensures few { IfOk result (λ applications. length applications.items ≤ 16) }
    ensures refused { IfErr result (AreRefused (lines text.now)) }
{
    let mut applications = Vec::new(alloc);
    for line in text.lines() {
        let application = next_application(line, applications.len())?;
        applications.push(application)?;
    }
    Ok(applications)
}
