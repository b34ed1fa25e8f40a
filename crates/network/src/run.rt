//! Carries out the script of a network.

use crate::only::OnlyMote;
use crate::options::Wish;
use mote_shell::Output;
use mote_text::script::End;
use network_run::fault::NetworkRunFault;
use network_setup::fault::SetUpRunFault;
use network_setup::script_run::run_script;
use std::alloc::Global;
use std::io::Write;

/// Flushes what was written. Where that fails, writing failed.
fn flush<W: Write>(
    writer: &mut W,
    outcome: Result<End, SetUpRunFault>,
) -> Result<End, SetUpRunFault> {
    match writer.flush() {
        Ok(()) => outcome,
        Err(_) => Err(SetUpRunFault::Run(NetworkRunFault::Write)),
    }
}

/// Executes a script, and writes the lines that are wished for.
pub(crate) fn carry_out<W: Write + Drop>(
    alloc: Global,
    script: &[u8],
    wish: Wish,
    writer: W,
) -> Result<End, SetUpRunFault> {
    match wish.only {
        Some(only) => {
            let mut sink = OnlyMote::new(writer, only);
            let outcome = run_script(alloc, script, &mut sink, wish.quiet, wish.only);
            flush(sink.writer(), outcome)
        }
        None => {
            let mut sink = Output::new(writer);
            let outcome = run_script(alloc, script, &mut sink, wish.quiet, None);
            flush(&mut sink.writer, outcome)
        }
    }
}
