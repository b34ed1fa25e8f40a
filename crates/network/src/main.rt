//! Runs a network of motes: a script comes from standard input, its transcript goes to standard output.
//!
//! The contracts here promise that the program is safe and that it ends. What it writes of a script is promised by the contract of
//! `network_setup`'s `run_script`. Which lines `--only` keeps is only tested.
#![tactic(auto)]

mod only;
mod options;
mod run;

use command_line::{Failure, exit_code, finish, texts_of, words_of};
use mote_session::refusal::SessionRefusal;
use mote_text::script::SCRIPT_LIMIT;
use mote_types::fault::{BootFault, RunFault};
use network_run::fault::NetworkRunFault;
use network_session::fault::NetworkFault;
use network_setup::fault::SetUpRunFault;
use options::{PROGRAM, Wish, wish_of};
use run::carry_out;
use std::io;
use std::io::Read;
use std::process::ExitCode;

/// All bytes of standard input, or one more than a script can have.
fn read_all<R: AllocGlobal + io::Input>(rt: &R) -> Result<Vec<u8>, Failure<'static>> {
    let mut bytes = Vec::new(rt.alloc());
    let mut reader = rt.reader().take(SCRIPT_LIMIT as u64 + 1);
    match reader.read_to_end(&mut bytes) {
        Ok(_) => Ok(bytes),
        Err(error) if error.kind() == io::ErrorKind::OutOfMemory => Err(BootFault::Memory.into()),
        Err(_) => Err(RunFault::Read.into()),
    }
}

/// Reports why a network's run failed, and returns the status that the program exits with.
fn report_run<R: Print + Eprint>(rt: &R, fault: NetworkRunFault) -> u8 {
    match fault {
        NetworkRunFault::Write => finish(rt, PROGRAM, Err(RunFault::Write.into())),
        NetworkRunFault::Refused(
            NetworkFault::TooLong | NetworkFault::Refused(SessionRefusal::TooManyInputs),
        ) => {
            let _ = eprintln!(rt; "{}: too many inputs or ticks", PROGRAM.name);
            70
        }
        NetworkRunFault::Refused(_) => report_broken(rt),
    }
}

/// Reports that a rule of the program is broken, and returns the status that the program exits with.
fn report_broken<R: Eprint>(rt: &R) -> u8 {
    let _ = eprintln!(rt; "{}: a rule of the program is broken", PROGRAM.name);
    70
}

/// Reports that the mote whose lines are wished for doesn't exist, and returns the status that the program exits with.
fn report_no_mote<R: Eprint>(rt: &R, wish: Wish) -> u8 {
    let _ = eprintln!(rt; "{}: no mote {}", PROGRAM.name, wish.only.unwrap_or(0));
    64
}

/// Runs a script, and returns the status that the program exits with.
fn run_to_status<R: AllocGlobal + Print + Eprint>(rt: &R, wish: Wish, script: &[u8]) -> u8 {
    match carry_out(rt.alloc(), script, wish, io::writer(rt)) {
        Ok(end) => finish(rt, PROGRAM, Ok(end)),
        Err(SetUpRunFault::Memory) => finish(rt, PROGRAM, Err(BootFault::Memory.into())),
        Err(SetUpRunFault::NoMote) => report_no_mote(rt, wish),
        Err(SetUpRunFault::BadLink) => report_broken(rt),
        Err(SetUpRunFault::Run(fault)) => report_run(rt, fault),
    }
}

/// Does what the words ask for. The first word is the program's name.
fn run_words<R: AllocGlobal + io::Input + Print + Eprint>(
    rt: &R,
    words: &[&str],
) -> Result<u8, Failure<'static>> {
    let wish = wish_of(rt.alloc(), words)?;
    let script = read_all(rt)?;
    Ok(run_to_status(rt, wish, script.as_slice()))
}

/// What the program does with its words. Returns the status that it exits with.
///
/// # Errors
///
/// `Memory` where memory ran out for the words.
fn work<R: AllocGlobal + io::Input + Print + Eprint>(
    rt: &R,
    words: &[String],
) -> Result<u8, Failure<'static>> {
    let texts = texts_of(rt.alloc(), words)?;
    match run_words(rt, texts.as_slice()) {
        Ok(status) => Ok(status),
        Err(failure) => Ok(finish(rt, PROGRAM, Err(failure))),
    }
}

fn main(rt: HostRuntime) -> ExitCode {
    let outcome = match words_of(&rt) {
        Ok(words) => work(&rt, words.as_slice()),
        Err(failure) => Err(failure),
    };
    exit_code(&rt, PROGRAM, outcome)
}
