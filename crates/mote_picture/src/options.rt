//! The command line: its options beside those that mote has, and the text of its help.

ghost use Rattle.std.specs.Prelude.{◌≡◌, false, IfErr, IfOk};
ghost use Rattle.clap.specs.Walk.{texts};
ghost use Rattle.clap.specs.Words.{app_of, found_of, rows_of, rule_of};
ghost use Rattle.mote_picture.specs.CommandLine as spec;
ghost use Rattle.mote_picture.specs.CommandLine.{IsByParser};

use clap::{Arg, ArgMatches, Command, value_parser};
use command_line::{Failure, Program, flag, names_argument, number_option, with_sizes};
use std::alloc::{AllocError, Global};

const ABOUT: &str = "\
Draws the picture of a run.

Reads a transcript, as the program mote writes it, from standard input, and
writes one SVG for any browser to standard output. It needs the same names and
sizes as mote, since a transcript has neither.";

const PAGE: &str =
    "Writes one HTML file in place of the SVG, for long runs: it scrolls, searches and steps through the run";

const DUMP: &str =
    "Writes a value change dump in place of the SVG, for viewers of waveforms such as GTKWave";

const AFTER_HELP: &str = "\
Exit status:
  0     the picture was written, or the help or the version was printed
  2     a line is malformed, or --vcd was used with a quiet transcript: nothing is
        written
  5, 6  standard input can't be read, standard output can't be written
  64    invalid arguments
  70    out of memory

Example:
  mote relay < relay.script | mote_picture relay > relay.svg
  mote relay < relay.script | mote_picture --page relay > relay.html";

/// What the program reports of itself.
pub(crate) const PROGRAM: Program = Program {
    name: "mote_picture",
    version: "0.2.0",
    after_help: AFTER_HELP,
};

fn from_option<'a>(alloc: Global) -> Arg<'a>
    ensures rule { rule_of result ≡ spec.from_option }
    ensures local { result.global ≡ false }
{
    let help = "Shows the run from this clock on";
    number_option(alloc, "from", value_parser!(u64), help).default_value("0")
}

fn to_option<'a>(alloc: Global) -> Arg<'a>
    ensures rule { rule_of result ≡ spec.to_option }
    ensures local { result.global ≡ false }
{
    let help = "Shows the run up to this clock";
    number_option(alloc, "to", value_parser!(u64), help)
}

/// The options for the part of the run that is shown.
fn with_range<'a>(alloc: Global, command: Command<'a>) -> Result<Command<'a>, AllocError>
    ensures { IfOk result (λ ranged. app_of ranged ≡ spec.with_range (app_of command.entry)) }
{
    command.arg(from_option(alloc))?.arg(to_option(alloc))
}

/// The flag for a page, which is no dump.
fn page_flag<'a>(alloc: Global) -> Result<Arg<'a>, AllocError>
    ensures rule { IfOk result (λ page. rule_of page ≡ spec.page_flag) }
    ensures local { IfOk result (λ page. page.global ≡ false) }
{
    flag(alloc, "page", PAGE).conflicts_with("vcd")
}

/// The command line as the parser gets it.
fn command<'a>(alloc: Global, program: Program) -> Result<Command<'a>, AllocError>
    ensures { IfOk result (λ command. app_of command ≡ spec.program program.name.now) }
{
    let command = Command::new(alloc, program.name)
        .version(program.version)
        .about(ABOUT)
        .after_help(program.after_help);
    let command = with_sizes(alloc, command)?;
    with_range(alloc, command)?
        .arg(flag(alloc, "unfolded", "Draws each line in its own row"))?
        .arg(page_flag(alloc)?)?
        .arg(flag(alloc, "vcd", DUMP))?
        .arg(names_argument(alloc))
}

/// What the parser makes of the arguments, of which the first is the program's name.
///
/// # Errors
///
/// `Request` or `Words` with what the parser finds, or `Memory` where memory was refused.
pub(crate) fn parse<'a>(
    alloc: Global,
    words: &'a [&'a str],
) -> Result<ArgMatches<'a>, Failure<'static>>
    ensures matches { IfOk result (λ matches. rows_of (found_of matches) ≡ spec.matches_in (texts words.now)) }
    ensures refused { IfErr result IsByParser }
{
    let command = command(alloc, PROGRAM)?;
    Ok(command.try_get_matches_from(words)?)
}
