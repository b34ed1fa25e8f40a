//! Compares the result of a run with what its file says.

ghost use Rattle.std.specs.Prelude.{◌≡◌, ◌≢◌, ◌↔◌, true, false, string_bytes, IfOk};
ghost use Rattle.std.specs.Str.Lines.{lines};
ghost use Rattle.mote_kit.specs.Gaps.{Fits, texts};
ghost use Rattle.mote_kit.specs.Outcomes.{EndsAsSaid, HasTranscript};

use crate::changes::changes;
use crate::difference::compare;
use crate::gaps::fits;
use crate::run_file::outcome::Outcome;
use crate::run_file::parts::Part;
use crate::run_file::written_run::WrittenRun;
use std::alloc::{AllocError, Global};
use std::io;

/// Whether a run came out as its file says. Where it did not, prints what differs: the first difference, or all.
pub fn comes_out<R: AllocGlobal + Print>(
    rt: &R,
    part: Part<'_>,
    run: &WrittenRun<'_>,
    outcome: &Outcome,
    reports_all: bool,
) -> io::Result<bool>
    ensures same { IfOk result (λ same. same ≡ true →
        (EndsAsSaid run.now.said_end outcome.now) × HasTranscript (string_bytes run.now.transcript) outcome.now.transcript.items) }
{
    let is_same = outcome.ended_as_said(run);
    if !is_same {
        println!(rt;
            "{part}: ended with: {}, and not: {}",
            outcome.end,
            run.end().unwrap_or("")
        )?;
    }
    let fits = compare_texts(rt, part, run, outcome, reports_all)?;
    Ok(is_same && fits)
}

/// Whether the transcript is the expected one. Where it is not, reports the lines that differ.
fn compare_texts<R: AllocGlobal + Print>(
    rt: &R,
    part: Part<'_>,
    run: &WrittenRun<'_>,
    outcome: &Outcome,
    reports_all: bool,
) -> io::Result<bool>
    ensures same { IfOk result (λ same. same ≡ true → HasTranscript (string_bytes run.now.transcript) outcome.now.transcript.items) }
    ensures differs { IfOk result (λ same. same ≡ false → string_bytes run.now.transcript ≢ outcome.now.transcript.items) }
{
    match compare(run.transcript().as_bytes(), outcome.transcript.as_slice()) {
        Ok(()) => Ok(true),
        Err(difference) if !run.has_gaps() && !reports_all => {
            println!(rt; "{part}: {difference}")?;
            Ok(false)
        }
        Err(_) => {
            let wanted = lines_of(rt.alloc(), run.transcript())?;
            let found = lines_of(rt.alloc(), outcome.text())?;
            compare_lines(rt, part, wanted.as_slice(), found.as_slice(), reports_all)
        }
    }
}

/// Whether the lines of a transcript are the expected ones, where a line may match any lines. Reports the differences, or the
/// first of them.
fn compare_lines<'x, R: AllocGlobal + Print>(
    rt: &R,
    part: Part<'_>,
    wanted: &'x [&'x str],
    found: &'x [&'x str],
    reports_all: bool,
) -> io::Result<bool>
    ensures { IfOk result (λ same. (same ≡ true) ↔ Fits (texts wanted.now) (texts found.now)) }
{
    if fits(wanted, found) {
        return Ok(true);
    }
    let changes = changes(rt.alloc(), wanted, found)?;
    for change in &changes {
        println!(rt; "{part}: {change}")?;
        if !reports_all {
            break;
        }
    }
    Ok(false)
}

/// Whether the transcript is the expected one.
pub(crate) fn is_shown(alloc: Global, run: &WrittenRun<'_>, found: &str) -> Result<bool, AllocError>
    ensures { IfOk result (λ shown. (shown ≡ true) ↔ Fits (lines (string_bytes run.now.transcript)) (lines found.now)) }
{
    let wanted = lines_of(alloc, run.transcript())?;
    let found = lines_of(alloc, found)?;
    Ok(fits(wanted.as_slice(), found.as_slice()))
}

/// The lines of a transcript.
fn lines_of(alloc: Global, text: &str) -> Result<Vec<&str>, AllocError>
    ensures { IfOk result (λ all. texts all.items ≡ lines text.now) }
{
    text.lines().collect(alloc)
}
