//! Draws the picture of a run: reads a transcript from standard input, writes one SVG, HTML file or value change dump to standard output.
//!
//! Started by the name `network_picture` or `network-picture` it draws the run of a network (`network.rt`): one program with two names,
//! since both are made of nearly the same libraries.
#![tactic(auto)]

ghost use Rattle.std.specs.Prelude.{◌≡◌, IfErr};
ghost use Rattle.command_line.specs.Statuses.{out_of_memory};
ghost use Rattle.mote_picture.specs.Named.{is_for_networks};
ghost use Rattle.mote_picture.specs.Statuses.{IsReportedWith};

mod named;
mod network;
mod options;
mod page;
mod reading;
mod streams;
mod undrawn;

use command_line::{Failure, exit_code, finish, texts_of, words_of};
use named::{Form, Named, read_words, title_of};
use options::PROGRAM;
use page::page_of;
use pictures::svg::{Settings, draw};
use pictures::transcript::is_quiet;
use reading::lines_of;
use std::alloc::{AllocError, Global};
use std::env::Env;
use std::io;
use std::process::ExitCode;
use streams::{read_all, write_all};
use undrawn::Undrawn;

/// The height of a picture that most viewers still open, in pixels: they store positions in 15 bits.
const HIGHEST: usize = 32_000;

/// The most bytes of the path by which the program is started.
const LONGEST_PATH: usize = 4_096;

/// The picture that is asked for. Warns where it is too high for most viewers.
fn drawn<R: AllocGlobal + Eprint>(
    rt: &R,
    lines: &[&str],
    named: &Named<'_>,
    title: &str,
) -> Result<Vec<u8>, AllocError> {
    let settings = Settings {
        title,
        names: named.names.as_slice(),
        from: named.from,
        to: named.to,
        sizes: named.sizes,
        unfolded: named.unfolded,
    };
    let picture = draw(rt.alloc(), lines, &settings)?;
    warn_of_height(rt, picture.height);
    Ok(picture.text)
}

/// The dump that is asked for.
fn dumped(alloc: Global, lines: &[&str], named: &Named<'_>) -> Result<Vec<u8>, Undrawn> {
    if is_quiet(lines) {
        return Err(Undrawn::Quiet);
    }
    let settings = pictures::dump::Settings {
        names: named.names.as_slice(),
        from: named.from,
        to: named.to,
        sizes: named.sizes,
    };
    Ok(pictures::dump::wave_of(alloc, lines, &settings)?)
}

/// What is asked for of a transcript.
fn written<R: AllocGlobal + Eprint>(
    rt: &R,
    lines: &[&str],
    named: &Named<'_>,
    title: &str,
) -> Result<Vec<u8>, Undrawn> {
    let is_part = named.from > 0 || named.to < u64::MAX;
    if is_part && is_quiet(lines) {
        return Err(Undrawn::QuietRange);
    }
    match named.form {
        Form::Picture => Ok(drawn(rt, lines, named, title)?),
        Form::Page => Ok(page_of(rt.alloc(), lines, title, named)?),
        Form::Dump => dumped(rt.alloc(), lines, named),
    }
}

/// Warns where a picture is too high for most viewers, which show only a part of it, or nothing.
fn warn_of_height<R: Eprint>(rt: &R, height: usize) {
    if height > HIGHEST {
        // Where the warning can't be written, the picture still is.
        let _ = eprintln!(rt;
            "mote_picture: few viewers open a picture of {height} pixels, more than {HIGHEST}: --from and --to show a part of the run, --page writes a page"
        );
    }
}

/// Draws lines.
fn draw_lines<R: AllocGlobal + Print + Eprint>(
    rt: &R,
    lines: &[&str],
    named: &Named<'_>,
    title: &str,
) -> Result<(), Undrawn> {
    let written = written(rt, lines, named, title)?;
    Ok(write_all(rt, written.as_slice())?)
}

/// Draws the transcript on standard input. Nothing is written before all its lines are read.
fn draw_transcript<R: AllocGlobal + io::Input + Print + Eprint>(
    rt: &R,
    named: &Named<'_>,
    title: &str,
) -> Result<(), Undrawn> {
    let transcript = read_all(rt)?;
    let lines = lines_of(rt.alloc(), transcript.as_slice())?;
    draw_lines(rt, lines.as_slice(), named, title)
}

/// Draws what the arguments ask for.
fn draw_picture<R: AllocGlobal + io::Input + Print + Eprint>(
    rt: &R,
    words: &[&str],
) -> Result<(), Undrawn> {
    let named = read_words(rt.alloc(), words)?;
    let title = title_of(rt.alloc(), words)?;
    draw_transcript(rt, &named, title.as_str())
}

/// Reports why nothing is drawn, and returns the status that the program exits with.
fn report<R: Print + Eprint>(rt: &R, undrawn: Undrawn) -> u8
    ensures { IsReportedWith undrawn result }
{
    match undrawn {
        Undrawn::Program(failure) => finish(rt, PROGRAM, Err(failure)),
        Undrawn::BadRange(_, _) | Undrawn::NoLine(_) | Undrawn::Quiet | Undrawn::QuietRange => {
            let _ = eprintln!(rt; "{}: {undrawn}", PROGRAM.name);
            undrawn.status()
        }
    }
}

/// Draws what the arguments ask for, or reports why nothing is drawn. Returns the status that the program exits with.
fn draw_or_report<R: AllocGlobal + io::Input + Print + Eprint>(rt: &R, words: &[&str]) -> u8 {
    match draw_picture(rt, words) {
        Ok(()) => 0,
        Err(undrawn) => report(rt, undrawn),
    }
}

/// What the program does with its arguments. Returns the status that it exits with.
///
/// # Errors
///
/// `Memory` where memory was refused for the arguments.
fn work<R: AllocGlobal + io::Input + Print + Eprint>(
    rt: &R,
    words: &[String],
) -> Result<u8, Failure<'static>>
    ensures { IfErr result (λ failure. failure ≡ out_of_memory) }
{
    let texts = texts_of(rt.alloc(), words)?;
    Ok(draw_or_report(rt, texts.as_slice()))
}

/// Whether a path ends with the name for networks: that of the program, or that of the command.
fn is_for_networks(path: &[u8]) -> bool
    ensures { result ≡ is_for_networks path.now }
{
    path.ends_with(b"network_picture") || path.ends_with(b"network-picture")
}

/// Whether the program was started by the name for networks.
fn draws_networks<R: Env>(rt: &R) -> bool {
    let mut path = [0u8; LONGEST_PATH];
    match rt.arg(0, &mut path) {
        Ok(length) => is_for_networks(&path[..length.min(LONGEST_PATH)]),
        Err(_) => false,
    }
}

fn main(rt: HostRuntime) -> ExitCode {
    if draws_networks(&rt) {
        return network::run(&rt);
    }
    let outcome = match words_of(&rt) {
        Ok(words) => work(&rt, words.as_slice()),
        Err(failure) => Err(failure),
    };
    exit_code(&rt, PROGRAM, outcome)
}
