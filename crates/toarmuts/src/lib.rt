//! The mote as a library for C: one call runs applications over a script. `toarmuts.h` in `include/` declares it.
//!
//! Calls, inputs and turns are structs of numbers and bytes, with no pointer in them. The contracts say what every number means, or that
//! it is invalid. `library_core` has these structs, the motes and networks that C holds, and what each call does.
#![tactic(auto)]

ghost use Rattle.std.specs.Prelude.{◌≡◌, ◌≢◌, ◌≤◌, ◌<◌, length, take, drop};
ghost use Rattle.library_core.specs.Outcomes.{HasNoReason, IsRefusalOf, IsRunOf, IsTooLongFor};

pub mod network;
pub mod steps;

use library_core::configuration::Configuration;
use library_core::outcome::{Outcome, put_refusal, put_run};
use library_core::running::run_lines;
use std::alloc::Global;

/// Runs applications over a script, writes the transcript to the front of the room for it, and reports how it went.
/// `applications` has a line for each: its name, or `calls` and its calls. No call asks anything of what it is given.
///
/// Where the status is that of a run's end (0, 2, 3 or 4), what was written is the text of the run that the machine makes with
/// these sizes, applications and inputs, and that is how it ends. Otherwise nothing is written, and the outcome tells why: which
/// size, or which application, which call of its list and what is wrong with it.
#[unsafe(no_mangle)]
pub extern "C" fn toarmuts_run(
    alloc: Global,
    configuration: &Configuration,
    applications: &[u8],
    script: &[u8],
    transcript: &mut [u8],
    outcome: &mut Outcome,
)
    ensures text { outcome.new.status ≤ 4
        → IsRunOf configuration.now applications.now script.now (take outcome.new.length transcript.new) outcome.new.status outcome.new.line }
    ensures fits { outcome.new.status ≤ 4 → outcome.new.length ≤ length transcript.new }
    ensures rest { outcome.new.status ≤ 4 → drop outcome.new.length transcript.new ≡ drop outcome.new.length transcript.old }
    ensures no_room { outcome.new.status ≡ 20
        → IsTooLongFor (length transcript.old) configuration.now applications.now script.now outcome.new.length }
    ensures refused { 4 < outcome.new.status → outcome.new.status ≢ 20
        → IsRefusalOf configuration.now applications.now outcome.new.status outcome.new.line outcome.new.reason outcome.new.application
        outcome.new.call }
    ensures no_reason { outcome.new.status ≤ 4 → HasNoReason outcome.new }
    ensures room_is_reason { outcome.new.status ≡ 20 → HasNoReason outcome.new }
    ensures no_line { outcome.new.status ≡ 20 → outcome.new.line ≡ 0 }
    ensures no_length { 4 < outcome.new.status → outcome.new.status ≢ 20 → outcome.new.length ≡ 0 }
    ensures unchanged { 4 < outcome.new.status → transcript.new ≡ transcript.old }
{
    match run_lines(alloc, configuration, applications, script) {
        Ok(ran) => put_run(ran, transcript, outcome),
        Err(refusal) => put_refusal(refusal, outcome),
    }
}
