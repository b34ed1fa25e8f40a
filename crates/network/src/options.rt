//! The command line, and the text that says what the program does.

use clap::{Arg, ArgMatches, Command, value_parser};
use command_line::{Failure, Program, flag, number_option};
use std::alloc::{AllocError, Global};

/// Which lines are written.
#[derive(Clone, Copy, Drop)]
pub(crate) struct Wish {
    /// Only turns that print or send, frames that were sent, and what ends a mote or the run.
    pub(crate) quiet: bool,
    /// Only the lines of this mote, without its number.
    pub(crate) only: Option<u32>,
}

const ABOUT: &str = "\
Runs a network of simulated Contiki-NG nodes.

Reads a script from standard input, and executes it. Its first lines set the
network up:
  mote N WORD..       mote N, the next one, or motes N..M: names of applications,
                      and sizes, as in the arguments of the program mote
  mote N calls CALL, CALL, ..
                      the same, with one more application, which makes these calls
  link A B delay D    mote B hears what mote A sends, D ticks later, at least 1
  line, ring or mesh N..M delay D
  grid N..M width W delay D
                      links both ways between neighbours
  .. every N          after a delay: each N-th frame is lost
  .. lot C seed S     after a delay: of 65536 frames about C are lost
  room N              the most frames in flight (default: 1024)
  rounds N            the most rounds of one input (default: 16777216)
Each further line is an input:
  tick N              advances the clock by N ticks, 0 to 4294967295
  N serial HEX        the serial line of mote N receives 1 to 256 bytes
  N frame HEX         the radio of mote N receives a frame of 1 to 127 bytes
An empty line and one that begins with '#' do nothing.

Writes a transcript to standard output: the lines of each mote, with its number
in front ('2 > tick 3'), '= 14' where the clock advances, and 'lost A B',
'full A B' and 'missed A B' where a frame isn't heard.";

const AFTER_HELP: &str = "\
Applications:
  hello, blink, echo, relay, churn, ping, as in the program mote, and
  clock-watcher, which calls 'clock' in each turn and never waits

Exit status:
  0     the script was executed, or the help or the version was printed
  2     the script has a malformed line: 'bad line N' ends the transcript
  3     a line took all its rounds: 'halt' ends the transcript
  4     the script has more than 16777216 bytes: 'too long' is the transcript
  5, 6  standard input can't be read, standard output can't be written
  64    invalid arguments, or --only with a mote that doesn't exist
  70    out of memory, or a limit of the program was reached

Example:
  printf 'mote 1..2 relay\\nlink 1 2 delay 3\\n1 frame 0a0b\\ntick 5\\n' | network";

pub(crate) const PROGRAM: Program = Program {
    name: "network",
    version: "0.2.0",
    after_help: AFTER_HELP,
};

fn quiet_flag<'a>(alloc: Global) -> Arg<'a> {
    let help = "Writes only turns that print or send, frames that were sent, and the last line";
    flag(alloc, "quiet", help)
}

fn only_option<'a>(alloc: Global) -> Arg<'a> {
    let numbers = value_parser!(u32).range(1..=4_294_967_295);
    let help = "Writes only the lines of mote N, without its number";
    number_option(alloc, "only", numbers, help)
}

/// The command line as the parser gets it.
fn command<'a>(alloc: Global, program: Program) -> Result<Command<'a>, AllocError> {
    let command = Command::new(alloc, program.name)
        .version(program.version)
        .about(ABOUT)
        .after_help(program.after_help);
    command.arg(quiet_flag(alloc))?.arg(only_option(alloc))
}

/// What the parser makes of the words, of which the first is the program's name.
fn parse<'a>(alloc: Global, words: &'a [&'a str]) -> Result<ArgMatches<'a>, Failure<'static>> {
    let command = command(alloc, PROGRAM)?;
    Ok(command.try_get_matches_from(words)?)
}

/// What the words of the command line ask for.
///
/// # Errors
///
/// `Request` or `Words` with what the parser finds, or `Memory` where memory ran out.
pub(crate) fn wish_of(alloc: Global, words: &[&str]) -> Result<Wish, Failure<'static>> {
    let matches = parse(alloc, words)?;
    Ok(Wish {
        quiet: matches.get_flag("quiet"),
        only: matches.get_one::<u32>("only"),
    })
}
