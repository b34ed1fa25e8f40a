//! The command line: its arguments, and the text of its help.

use clap::{Arg, ArgMatches, Command};
use command_line::{Failure, Program, flag};
use std::alloc::{AllocError, Global};

const ABOUT: &str = "\
Carries out what files tell: runs of applications on a simulated Contiki-NG node,
and of networks of such nodes.

Where a file has a run's transcript, the run is compared with it, and the first
line that differs is shown. Where it has none, the transcript is written.";

const AFTER_HELP: &str = "\
The lines of a file:
  # ...           a comment
  == NAME         one more run; a file with no such line is one run
  network         the first line of a run of a network: it has the lines of the
                  script and of the transcript of the program network
  app NAME        one more application: hello, blink, echo, relay, churn, ping,
                  or clock-watcher, which asks for the clock at every turn
  calls CALL, ..  one more application, which makes these calls, 128 at most,
                  and then waits; '3 clock' is three calls
  rows            one more application, which does what the rows below say:
  on STIMULUS: CALL, ..
                  the calls that answer an event (136, TIMER 0, line, frame),
                  callback, refused or any; 'repeat' as the last one begins
                  anew, and 'told' as a call's last word is what was told last
  mmem N, heap N, quota N, header N
                  sizes in bytes, as the options of mote
  quiet           the transcript is a quiet one
  tick N, serial HEX, frame HEX
                  one more line of the script
  text hello      the same for these bytes and a line end on the serial line
  at N            ticks up to clock N
  script LINE     any line of the script; last LINE: its last, with no line end
  ends END        how the run ends: finished, halted, too long, bad line N or
                  bad sizes; else as the transcript's last line shows
  times N LINE    a line of the script or the transcript, N times
  4 ..., > ...    and all else that mote writes: the transcript, in which a
                  line ... stands for any lines
  \"hi\", INIT      may stand for hex digits, and for the number of an event

Exit status:
  0   each run came out as its file says, or was written
  1   some run did not, or failed
  2   a file has no form: nothing was run
  6   standard output, or a file, can't be written
  64  the words are no use
  70  memory was refused";

pub(crate) const PROGRAM: Program = Program {
    name: "scenario",
    version: "0.2.0",
    after_help: AFTER_HELP,
};

/// What to do with files.
#[derive(Clone, Copy, Drop)]
pub(crate) struct Wish {
    /// Each run is executed in pieces too.
    pub(crate) thorough: bool,
    /// Each difference is reported.
    pub(crate) reports_all: bool,
    /// Transcripts are written into the files.
    pub(crate) writes: bool,
    /// What the files say is printed, and nothing is run.
    pub(crate) records: bool,
    /// There are several files.
    pub(crate) of_several: bool,
}

impl Wish {
    /// What the arguments say to do with this number of files.
    pub(crate) fn of(matches: &ArgMatches<'_>, files: usize) -> Self {
        Wish {
            thorough: matches.get_flag("thorough"),
            reports_all: matches.get_flag("all"),
            writes: matches.get_flag("write"),
            records: matches.get_flag("json"),
            of_several: files > 1,
        }
    }
}

fn write_flag<'a>(alloc: Global) -> Result<Arg<'a>, AllocError> {
    let help = "Puts the transcripts in their places in the files, in place of those that differ";
    flag(alloc, "write", help)
        .conflicts_with("all")?
        .conflicts_with("thorough")?
        .conflicts_with("json")
}

fn json_flag<'a>(alloc: Global) -> Result<Arg<'a>, AllocError> {
    let help = "Runs nothing, and writes what each run is given and is to write, as a line of JSON";
    flag(alloc, "json", help)
        .conflicts_with("all")?
        .conflicts_with("thorough")
}

fn all_flag<'a>(alloc: Global) -> Arg<'a> {
    flag(alloc, "all", "Shows every difference")
}

fn thorough_flag<'a>(alloc: Global) -> Arg<'a> {
    let help = "Carries out each run with a transcript in fifteen kinds of pieces too";
    flag(alloc, "thorough", help)
}

fn files<'a>(alloc: Global) -> Arg<'a> {
    Arg::new(alloc, "FILE")
        .num_args(1..)
        .required(true)
        .help("Files that tell of runs")
}

/// The command line, as a description for the parser.
fn command<'a>(alloc: Global, program: Program) -> Result<Command<'a>, AllocError> {
    let write = write_flag(alloc)?;
    let json = json_flag(alloc)?;
    let command = Command::new(alloc, program.name)
        .version(program.version)
        .about(ABOUT)
        .after_help(program.after_help);
    command
        .arg(write)?
        .arg(all_flag(alloc))?
        .arg(thorough_flag(alloc))?
        .arg(json)?
        .arg(files(alloc))
}

/// What the parser makes of the arguments, of which the first is the program's name.
///
/// # Errors
///
/// `Request` or `Words` with what the parser finds, or `Memory` where memory was refused.
pub(crate) fn parse<'a>(
    alloc: Global,
    words: &'a [&'a str],
) -> Result<ArgMatches<'a>, Failure<'static>> {
    let command = command(alloc, PROGRAM)?;
    Ok(command.try_get_matches_from(words)?)
}
