//! A template to copy: two applications, and a program that runs them by their names.
#![tactic(auto)]

mod application;
mod averager;
mod beat;
mod runner;
#[cfg(test)]
mod tests;

use application::Application;
use mote_shell::{Program, after_help, exit_code, words_of, work};
use runner::Boxing;
use std::process::ExitCode;

const PROGRAM: Program = Program {
    name: "template_app",
    version: "0.2.0",
    after_help: after_help!(
        "  beat     prints 'beat' every 10 ticks
  averager prints the average of the first bytes of the last eight frames",
        "which prints 'beat' at the clock's tick 10:
  printf 'tick 10\\n' | template_app beat"
    ),
};

fn main(rt: HostRuntime) -> ExitCode {
    let outcome = match words_of(&rt) {
        Ok(words) => work::<Application, Boxing, _>(&rt, PROGRAM, words.as_slice()),
        Err(failure) => Err(failure),
    };
    exit_code(&rt, PROGRAM, outcome)
}
