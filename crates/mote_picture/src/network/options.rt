//! The command line, and the text that says what the program does.

use clap::{ArgMatches, Command, value_parser};
use command_line::{Failure, Program, flag, number_option};
use std::alloc::{AllocError, Global};

const ABOUT: &str = "\
Draws the picture of a network's run: a message sequence chart.

Reads a transcript, as the program network writes it, from standard input, and
writes one SVG to standard output. Put the network's script before the transcript:
then the picture has an arrow from each frame that was sent to each mote that
heard it. A transcript alone doesn't state the links.";

const AFTER_HELP: &str = "\
Exit status:
  0     the picture or the capture was written, or this text or the version
  2     a line is malformed, the transcript is a quiet one, or a frame was sent
        2^32 seconds or more after the start: nothing is written
  5, 6  standard input can't be read, standard output can't be written
  64    invalid arguments
  70    memory was refused

Example:
  network < three.net > three.transcript
  cat three.net three.transcript | network_picture > three.svg
  network_picture --pcap --clock-second 1000 < three.transcript > three.pcap";

const CLOCK_SECOND: &str = "CLOCK_SECOND of the network's programs, for the times of a capture";

const PCAP: &str =
    "Writes the frames that were sent in place of the picture, as a capture for tshark and Wireshark";

pub(crate) const PROGRAM: Program = Program {
    name: "network_picture",
    version: "0.2.0",
    after_help: AFTER_HELP,
};

/// What the words of the command line ask for.
#[derive(Clone, Copy, Drop)]
pub(crate) struct Wish {
    /// A capture instead of the picture.
    pub(crate) pcap: bool,
    /// The number of ticks in a second, at least 1.
    pub(crate) clock_second: u32,
    /// The clocks between which the picture shows the run.
    pub(crate) from: u64,
    pub(crate) to: u64,
}

/// The options for the part of the run that is shown.
fn with_range<'a>(alloc: Global, command: Command<'a>) -> Result<Command<'a>, AllocError> {
    let from = "Shows the run from this clock on";
    let to = "Shows the run up to this clock";
    command
        .arg(number_option(alloc, "from", value_parser!(u64), from))?
        .arg(number_option(alloc, "to", value_parser!(u64), to))
}

/// The command line as the parser gets it.
fn command<'a>(alloc: Global, program: Program) -> Result<Command<'a>, AllocError> {
    let command = Command::new(alloc, program.name)
        .version(program.version)
        .about(ABOUT)
        .after_help(program.after_help);
    let seconds = value_parser!(u32).range(1..=999_999_999);
    with_range(alloc, command)?
        .arg(flag(alloc, "pcap", PCAP))?
        .arg(number_option(alloc, "clock-second", seconds, CLOCK_SECOND).default_value("128"))
}

/// What the parser makes of the words, of which the first is the program's name.
fn parse<'a>(alloc: Global, words: &'a [&'a str]) -> Result<ArgMatches<'a>, Failure<'static>> {
    let command = command(alloc, PROGRAM)?;
    Ok(command.try_get_matches_from(words)?)
}

/// What the words of the command line ask for.
///
/// # Errors
///
/// `Request` or `Words` with what the parser finds, or `Memory` where memory was refused.
pub(crate) fn wish_of(alloc: Global, words: &[&str]) -> Result<Wish, Failure<'static>> {
    let matches = parse(alloc, words)?;
    Ok(Wish {
        pcap: matches.get_flag("pcap"),
        clock_second: matches.get_one::<u32>("clock-second").unwrap_or(128),
        from: matches.get_one::<u64>("from").unwrap_or(0),
        to: matches.get_one::<u64>("to").unwrap_or(u64::MAX),
    })
}
