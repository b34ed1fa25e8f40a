//! The command line: its options, and the text of its help. The options that other programs take too are public.

ghost use Rattle.std.specs.Prelude.{◌≡◌, false, IfOk};
ghost use Rattle.clap.specs.Kinds.{FailsBy};
ghost use Rattle.clap.specs.Words.{app_of, found_of, rows_of, rule_of};
ghost use Rattle.clap.specs.Walk.{texts};
ghost use Rattle.command_line.specs.CommandLine as spec;

use crate::program::Program;
use clap::builder::ValueParser;
use clap::parser::ValueSource;
use clap::{Arg, ArgAction, ArgMatches, Command, Error, value_parser};
use std::alloc::{AllocError, Global};

const ABOUT: &str = "\
Runs applications on one simulated Contiki-NG node.

Reads a script from standard input, one input a line, and executes it:
  tick N        advances the clock by N ticks, 0 to 4294967295
  serial HEX    the serial line receives 1 to 256 bytes
  frame HEX     the radio receives a frame of 1 to 127 bytes
An empty line and one that begins with '#' do nothing.

Writes a transcript to standard output: a line for each input ('> tick 5'), and
a line for each turn of an application: its process number, the event or reply
that it receives, and the call that it makes ('4 event 136 0 -> print 6f6e0a').";

/// The option of this name, which takes a number.
pub fn number_option<'a>(
    alloc: Global,
    name: &'a str,
    numbers: ValueParser<'a>,
    help: &'a str,
) -> Arg<'a>
    ensures rule { rule_of result ≡ spec.number_option name.entry.now numbers.entry }
    ensures local { result.global ≡ false }
{
    Arg::new(alloc, name)
        .long(name)
        .value_name("N")
        .value_parser(numbers)
        .help(help)
}

/// The flag of this name.
pub fn flag<'a>(alloc: Global, name: &'a str, help: &'a str) -> Arg<'a>
    ensures rule { rule_of result ≡ spec.flag name.entry.now }
    ensures local { result.global ≡ false }
{
    Arg::new(alloc, name)
        .long(name)
        .action(ArgAction::SetTrue)
        .help(help)
}

/// The option of this name, which takes the size of a region.
fn size_option<'a>(alloc: Global, name: &'a str, numbers: ValueParser<'a>, help: &'a str) -> Arg<'a>
    ensures rule { rule_of result ≡ spec.size_option name.entry.now numbers.entry }
    ensures local { result.global ≡ false }
{
    number_option(alloc, name, numbers, help).default_value("4096")
}

/// The size of managed memory, or of a part of it.
fn mmem_sizes<'a>() -> ValueParser<'a>
    ensures { result ≡ spec.sizes_from 4 }
{
    value_parser!(u32).range(4..=65_536)
}

fn mmem_option<'a>(alloc: Global) -> Arg<'a>
    ensures rule { rule_of result ≡ spec.mmem_option }
    ensures local { result.global ≡ false }
{
    let help = "Bytes of managed memory, a multiple of 4 from 4 to 65536";
    size_option(alloc, "mmem", mmem_sizes(), help)
}

fn heap_option<'a>(alloc: Global) -> Arg<'a>
    ensures rule { rule_of result ≡ spec.heap_option }
    ensures local { result.global ≡ false }
{
    let numbers = value_parser!(u32).range(20..=65_536);
    let help = "Bytes of heap memory, a multiple of 4 from 20 to 65536";
    size_option(alloc, "heap", numbers, help)
}

fn quota_option<'a>(alloc: Global) -> Arg<'a>
    ensures rule { rule_of result ≡ spec.quota_option }
    ensures local { result.global ≡ false }
{
    let help =
        "Bytes of managed memory for each application and the frames, a multiple of 4 from 4 to 65536; N x (applications + 1) <= --mmem";
    number_option(alloc, "quota", mmem_sizes(), help)
}

fn header_option<'a>(alloc: Global) -> Arg<'a>
    ensures rule { rule_of result ≡ spec.header_option }
    ensures local { result.global ≡ false }
{
    let numbers = value_parser!(u32);
    let help = "Bytes of a header in heap memory, 16 or 8";
    number_option(alloc, "header", numbers, help).default_value("16")
}

fn quiet_flag<'a>(alloc: Global) -> Arg<'a>
    ensures rule { rule_of result ≡ spec.quiet_flag }
    ensures local { result.global ≡ false }
{
    let help = "Writes only turns that print or send, frames that were sent, and the last line";
    flag(alloc, "quiet", help)
}

/// The names of applications.
pub fn names_argument<'a>(alloc: Global) -> Arg<'a>
    ensures rule { rule_of result ≡ spec.names_argument }
    ensures local { result.global ≡ false }
{
    Arg::new(alloc, "APP")
        .num_args(0..)
        .help("Names of applications, 0 to 16, repeats allowed")
}

/// A command that takes the options for sizes besides its others.
///
/// # Errors
///
/// `AllocError` where memory was refused.
pub fn with_sizes<'a>(alloc: Global, command: Command<'a>) -> Result<Command<'a>, AllocError>
    ensures { IfOk result (λ sized. app_of sized ≡ spec.with_sizes (app_of command.entry)) }
{
    command
        .arg(mmem_option(alloc))?
        .arg(heap_option(alloc))?
        .arg(quota_option(alloc))?
        .arg(header_option(alloc))
}

/// The command line, as a description for the parser.
fn command<'a>(alloc: Global, program: Program) -> Result<Command<'a>, AllocError>
    ensures { IfOk result (λ command. app_of command ≡ spec.program program.name.now) }
{
    let command = Command::new(alloc, program.name)
        .version(program.version)
        .about(ABOUT)
        .after_help(program.after_help);
    with_sizes(alloc, command)?
        .arg(quiet_flag(alloc))?
        .arg(names_argument(alloc))
}

/// What the parser makes of the arguments, of which the first is the program's name.
///
/// # Errors
///
/// What the parser finds in the arguments: a mistake, or that they ask for the help or the version. `OutOfMemory` where
/// memory was refused.
pub fn parse<'a>(
    alloc: Global,
    program: Program,
    words: &'a [&'a str],
) -> Result<ArgMatches<'a>, Error>
    ensures matches { IfOk result (λ matches. rows_of (found_of matches) ≡ spec.matches_in (texts words.now)) }
    ensures faults { FailsBy (spec.errors_in (texts words.now)) result }
{
    let command = command(alloc, program)?;
    command.try_get_matches_from(words)
}

/// The number of an option, if it has one. The parser lets no other text through.
pub fn number_in(matches: &ArgMatches<'_>, option: &str) -> Option<u32>
    ensures { result ≡ spec.number_of option.now (rows_of (found_of matches.now)) }
{
    matches.get_one::<u32>(option)
}

/// The number of an option that has a default. Where there is none the size is 0, which no mote has.
pub fn size_in(matches: &ArgMatches<'_>, option: &str) -> u32
    ensures { result ≡ spec.size_of option.now (rows_of (found_of matches.now)) }
{
    number_in(matches, option).unwrap_or(0)
}

fn is_in_words(source: Option<ValueSource>) -> bool
    ensures { result ≡ spec.is_in_words source }
{
    matches!(source, Some(ValueSource::CommandLine))
}

/// Whether the arguments ask for a quiet transcript.
pub fn is_quiet(matches: &ArgMatches<'_>) -> bool
    ensures { result ≡ spec.is_quiet (rows_of (found_of matches.now)) }
{
    is_in_words(matches.value_source("quiet"))
}
