//! Runs applications on a mote: reads a script from standard input, and writes its transcript to standard output.
#![tactic(auto)]

mod runner;

use mote_apps::bundled::Bundled;
use mote_shell::{Program, after_help, exit_code, words_of, work};
use runner::Boxing;
use std::process::ExitCode;

const PROGRAM: Program = Program {
    name: "mote",
    version: "0.2.0",
    after_help: after_help!(
        "  hello    prints 'hi' when it starts
  blink    prints 'on' and 'off' in turn, every 10 ticks
  echo     prints each line that it receives on the serial line
  relay    sends each radio frame that it receives
  churn    makes 18 calls on all kinds of memory when it starts
  ping     broadcasts a count every 5 ticks, and prints it",
        "which prints 'on' at the clock's tick 10:
  printf 'tick 10\\n' | mote blink"
    ),
};

fn main(rt: HostRuntime) -> ExitCode {
    let outcome = match words_of(&rt) {
        Ok(words) => work::<Bundled, Boxing, _>(&rt, PROGRAM, words.as_slice()),
        Err(failure) => Err(failure),
    };
    exit_code(&rt, PROGRAM, outcome)
}
