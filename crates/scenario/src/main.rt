//! Executes the runs in files, and compares them with the transcripts there. Its contracts promise that it is safe and
//! that it ends; what a run writes is promised by the contracts of `mote_run`'s `run` and `network_setup`'s `run_script`.
#![tactic(auto)]

mod actor;
mod acts;
mod fault;
mod files;
mod network;
mod options;
mod reader;
mod run;
mod runs;
mod scenario;
mod writing;

use command_line::{Failure, exit_code, finish, texts_of, words_of};
use files::ScenarioFile;
use mote_types::fault::{BootFault, RunFault};
use options::{PROGRAM, Wish, parse};
use std::io;
use std::process::ExitCode;
use std::rt::Files;

/// Each run came out as its file says, or was written.
const AS_SAID: u8 = 0;
/// Some run did not come out as its file says, or failed.
const DIFFERS: u8 = 1;
/// A file is malformed or can't be read, and nothing was run.
const MALFORMED: u8 = 2;
/// A file can't be written, and the reason was reported.
const NOT_WRITTEN: u8 = 6;

/// Reads the files of these paths. Returns whether all are well-formed; those that aren't are reported on standard error.
fn read_files<'a, R: AllocGlobal + Files + Eprint>(
    rt: &R,
    paths: &[&'a str],
    files: &mut Vec<ScenarioFile<'a>>,
) -> io::Result<bool> {
    let mut are_well_formed = true;
    for path in paths {
        match ScenarioFile::read(rt, *path)? {
            Some(file) => files.push(file)?,
            None => are_well_formed = false,
        }
    }
    Ok(are_well_formed)
}

/// Does with all files what is wished, and returns the status that the program exits with.
fn process_files<R: AllocGlobal + Files + Print + Eprint>(
    rt: &R,
    files: &[ScenarioFile<'_>],
    wish: Wish,
) -> io::Result<u8> {
    let mut are_as_said = true;
    for file in files {
        are_as_said = file.process(rt, wish)? && are_as_said;
    }
    Ok(if are_as_said {
        AS_SAID
    } else if wish.writes {
        NOT_WRITTEN
    } else {
        DIFFERS
    })
}

/// Does with the files of these paths what is wished, and returns the status that the program exits with.
fn run_files<R: AllocGlobal + Files + Print + Eprint>(
    rt: &R,
    paths: &[&str],
    wish: Wish,
) -> io::Result<u8> {
    let mut files = Vec::new(rt.alloc());
    if read_files(rt, paths, &mut files)? {
        process_files(rt, files.as_slice(), wish)
    } else {
        Ok(MALFORMED)
    }
}

/// Does what the arguments ask for, of which the first is the program's name.
fn run_words<R: AllocGlobal + Files + Print + Eprint>(
    rt: &R,
    words: &[&str],
) -> Result<u8, Failure<'static>> {
    let matches = parse(rt.alloc(), words)?;
    // The parser refuses arguments without a file.
    let paths = matches.get_strs("FILE").unwrap_or(&[]);
    match run_files(rt, paths, Wish::of(&matches, paths.len())) {
        Ok(status) => Ok(status),
        Err(error) if error.kind() == io::ErrorKind::OutOfMemory => Err(BootFault::Memory.into()),
        Err(_) => Err(RunFault::Write.into()),
    }
}

/// What the program does with its arguments. Returns the status that it exits with.
///
/// # Errors
///
/// `Memory` where memory was refused for the arguments.
fn work<R: AllocGlobal + Files + Print + Eprint>(
    rt: &R,
    words: &[String],
) -> Result<u8, Failure<'static>> {
    let texts = texts_of(rt.alloc(), words)?;
    match run_words(rt, texts.as_slice()) {
        Ok(status) => Ok(status),
        Err(failure) => Ok(finish(rt, PROGRAM, Err(failure))),
    }
}

fn main(rt: HostRuntime) -> ExitCode {
    let outcome = match words_of(&rt) {
        Ok(words) => work(&rt, words.as_slice()),
        Err(failure) => Err(failure),
    };
    exit_code(&rt, PROGRAM, outcome)
}
