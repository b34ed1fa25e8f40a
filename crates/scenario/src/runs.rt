//! Executes the runs of a file, and reports their results.

ghost use Rattle.std.specs.Prelude.{◌<◌};

use crate::options::{PROGRAM, Wish};
use crate::run::{Executed, WHOLE, Widths};
use mote_kit::run_file::{Part, Results, comes_out};
use std::io;

/// Executes all runs of the file of this path, and reports their results. Returns whether all came out as the file says.
pub(crate) fn execute_runs<R: AllocGlobal + Print + Eprint>(
    rt: &R,
    path: &str,
    parts: &[Part<'_>],
    wish: Wish,
) -> io::Result<bool> {
    let mut results = Results::new(wish.of_several);
    for part in parts {
        execute_part(rt, *part, wish, &mut results)?;
    }
    results.report(rt, path, wish.thorough)
}

/// Executes one run of a file, and counts its result.
fn execute_part<R: AllocGlobal + Print + Eprint>(
    rt: &R,
    part: Part<'_>,
    wish: Wish,
    results: &mut Results,
) -> io::Result<()> {
    let executed = Executed::of(rt.alloc(), part, WHOLE)?;
    if !executed.run.has_result() {
        return results.show(rt, PROGRAM.name, part, &executed.outcome);
    }
    let comes = comes_out(rt, part, &executed.run, &executed.outcome, wish.reports_all)?;
    results.count(comes);
    if wish.thorough {
        count_cuts(rt, part, results)?;
    }
    Ok(())
}

/// Counts how often a run comes out as its file says, of fifteen times in which script and transcript are cut into other pieces.
fn count_cuts<R: AllocGlobal + Print>(
    rt: &R,
    part: Part<'_>,
    results: &mut Results,
) -> io::Result<()> {
    for given in [1, 2, 3, 7, 4_096] {
        count_sinks(rt, part, given, results)?;
    }
    Ok(())
}

/// Counts the sinks, of three that take few bytes at a time, that get the transcript as the file has it, where a read returns at most
/// `given` bytes.
fn count_sinks<R: AllocGlobal + Print>(
    rt: &R,
    part: Part<'_>,
    given: usize,
    results: &mut Results,
) -> io::Result<()>
    requires { 0 < given }
{
    for taken in [1, 5, usize::MAX] {
        let executed = Executed::of(rt.alloc(), part, Widths { given, taken })?;
        let comes = comes_out(rt, part, &executed.run, &executed.outcome, false)?;
        results.count_in_pieces(comes);
    }
    Ok(())
}
