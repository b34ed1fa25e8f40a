//! Draws the run of a network: a script and a transcript come from standard input, one SVG or capture goes to standard output.
//!
//! The contracts here promise that the program is safe and that it ends, and that a picture is a well-formed document. What a line says,
//! and each byte of a capture, is promised by `pictures`. How a script's links are read, what frames are called, and where a picture
//! has what, is only tested.

ghost use Rattle.std.specs.Prelude.{◌≡◌, true, false, max, IfOk};
ghost use Rattle.pictures.specs.Network.Capture.{pcap_of};
ghost use Rattle.pictures.specs.Svg.Markup.{IsDocument};
ghost use Rattle.mote_picture.specs.NetworkStatuses.{IsReportedWith};

mod chart;
mod cursor;
mod flying;
mod frames;
mod layout;
mod links;
mod lowpan;
mod names;
mod options;
mod packet;
mod radio_header;
mod reading;
mod rows;
mod style;
mod undrawn;
mod words;

use crate::streams::{read_all, write_all};
use chart::chart_of;
use command_line::{Failure, exit_code, finish, texts_of, words_of};
use options::{PROGRAM, Wish, wish_of};
use pictures::network::{NetworkLine, capture_of};
use pictures::transcript::is_quiet;
use reading::{Run, read_run};
use std::alloc::{AllocError, Global};
use std::env::Env;
use std::io;
use std::process::ExitCode;
use undrawn::Undrawn;

/// Whether a line may be one of a quiet transcript.
fn may_be_quiet(line: &NetworkLine<'_>) -> bool {
    matches!(*line, NetworkLine::Mote(_, _) | NetworkLine::Ending(_))
}

/// Whether a transcript is a quiet one: no line of the network's own but the last, and no other line of a mote.
fn has_no_clock(alloc: Global, run: &Run<'_>) -> Result<bool, AllocError> {
    if !run.lines.as_slice().iter().all(|line| may_be_quiet(line)) {
        return Ok(false);
    }
    let mut texts = Vec::new(alloc);
    for text in run.texts.as_slice() {
        if let Some((_, rest)) = text.split_once(' ') {
            texts.push(rest)?;
        }
    }
    Ok(is_quiet(texts.as_slice()))
}

/// What the words ask for of a run.
fn written(alloc: Global, run: &Run<'_>, wish: Wish) -> Result<Vec<u8>, Undrawn>
    ensures capture { wish.pcap ≡ true → IfOk result (λ text. text.items ≡ pcap_of (max wish.clock_second 1) run.now.lines.items) }
    ensures chart { wish.pcap ≡ false → IfOk result (λ text. IsDocument text.items) }
{
    if has_no_clock(alloc, run)? {
        return Err(Undrawn::Quiet);
    }
    if wish.pcap {
        return Ok(capture_of(alloc, run.lines.as_slice(), wish.clock_second.max(1))?);
    }
    Ok(chart_of(alloc, run, wish)?)
}

/// Writes what the words ask for. Nothing is written before all lines are read.
fn draw<R: AllocGlobal + io::Input + Print + Eprint>(
    rt: &R,
    words: &[&str],
) -> Result<(), Undrawn> {
    let wish = wish_of(rt.alloc(), words)?;
    if wish.from > wish.to {
        return Err(Undrawn::BadRange(wish.from, wish.to));
    }
    let bytes = read_all(rt)?;
    let run = read_run(rt.alloc(), bytes.as_slice())?;
    let written = written(rt.alloc(), &run, wish)?;
    Ok(write_all(rt, written.as_slice())?)
}

/// Reports why nothing is written, and returns the status that the program exits with.
fn report<R: Print + Eprint>(rt: &R, undrawn: Undrawn) -> u8
    ensures { IsReportedWith undrawn result }
{
    match undrawn {
        Undrawn::Program(failure) => finish(rt, PROGRAM, Err(failure)),
        Undrawn::BadRange(_, _)
        | Undrawn::BadScript(_)
        | Undrawn::NoLine(_)
        | Undrawn::Quiet
        | Undrawn::Late => {
            let _ = eprintln!(rt; "{}: {undrawn}", PROGRAM.name);
            undrawn.status()
        }
    }
}

/// What the program does with its words. Returns the status that it exits with.
///
/// # Errors
///
/// `Memory` where memory was refused for the words.
fn work<R: AllocGlobal + io::Input + Print + Eprint>(
    rt: &R,
    words: &[String],
) -> Result<u8, Failure<'static>> {
    let texts = texts_of(rt.alloc(), words)?;
    match draw(rt, texts.as_slice()) {
        Ok(()) => Ok(0),
        Err(undrawn) => Ok(report(rt, undrawn)),
    }
}

/// Draws what the arguments ask for. Returns the status that the program exits with.
pub(crate) fn run<R: AllocGlobal + Env + io::Input + Print + Eprint>(rt: &R) -> ExitCode {
    let outcome = match words_of(rt) {
        Ok(words) => work(rt, words.as_slice()),
        Err(failure) => Err(failure),
    };
    exit_code(rt, PROGRAM, outcome)
}
