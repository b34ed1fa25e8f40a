//! The applications of a run: those that have a name, and lists of calls.

ghost use Rattle.std.specs.Prelude.{◌≡◌, ◌≤◌, ◌<◌, ◌+◌, ◌++◌, ℕ, List, codes, length, slice_index, IfErr, IfOk, IfSome, IsOk, IsOkAnd, IsSome, OnErr, OnOk};
ghost use Rattle.std.specs.Char.{is_ascii_digit};
ghost use Rattle.mote_types.specs.declared.call.Call.{Call as Asked};
ghost use Rattle.call_lists.specs.Applications.{application_says, IsListed, IsNamed};
ghost use Rattle.call_lists.specs.Calls.{AreCalls, AreMade, AreWaits};
ghost use Rattle.call_lists.specs.Faults.{IsNoList, TellsNoName};
ghost use Rattle.call_lists.specs.Ranges.{ArePossible};
ghost use Rattle.call_lists.specs.Code.Lists.{AreOfText, ArePut, HasCalls, IsCounted, IsPartPut, behind_comma};

use crate::calls::call_of;
use crate::fault::CallFault;
use crate::words::{number_of, parted};
use mote_apps::bundled::Bundled;
use mote_apps::steps::Steps;
use mote_types::app::App;
use mote_types::call::Call;
use mote_types::event::Stimulus;
use std::array;

/// An application of a run.
#[derive(Drop)]
pub enum Application {
    Named(Bundled),
    /// It makes the calls of a list in order, and waits after the last.
    Listed(Steps<128>),
    /// It asks for the clock at every turn.
    ClockWatcher,
}

impl App for Application {
    ghost says = { application_says };

    fn turn(&mut self, stimulus: &Stimulus) -> Call {
        match self {
            Application::Named(application) => application.turn(stimulus),
            Application::Listed(steps) => steps.turn(stimulus),
            Application::ClockWatcher => Call::Clock,
        }
    }
}

impl Application {
    /// The application of this name: one of the mote's, or `clock-watcher`.
    ///
    /// # Errors
    ///
    /// `NoApplication` where no application has this name.
    pub fn named(name: &str) -> Result<Self, CallFault<'_>>
        ensures named { IfOk result (IsNamed name.now) }
        ensures none { IfErr result (TellsNoName name.now) }
    {
        match Bundled::named(name) {
            Some(application) => Ok(Application::Named(application)),
            None if name == "clock-watcher" => Ok(Application::ClockWatcher),
            None => Err(CallFault::NoApplication(name)),
        }
    }

    /// The application that makes the calls of this text in order, at most 128. Commas separate them, and a number before
    /// a call says how often it is made.
    ///
    /// # Errors
    ///
    /// Exactly where no 128 calls are a list of this text: the first malformed call, or `TooManyCalls`.
    pub fn listed(text: &str) -> Result<Self, CallFault<'_>>
        ensures listed { IfOk result (IsListed text.now) }
        ensures refused { OnErr result (IsNoList text.now) }
    {
        let mut calls = waits();
        if !text.is_empty() {
            put_calls(&mut calls, text)?;
        }
        Ok(Application::Listed(Steps::new(calls)))
    }
}

/// A list that only waits.
fn waits() -> [Call; 128]
    ensures { AreWaits result }
{
    array::from_fn(|_| Call::Wait)
}

/// Puts the calls of a text that isn't empty at the front of the list.
fn put_calls<'a>(calls: &mut [Call], text: &'a str) -> Result<(), CallFault<'a>>
    requires { length calls.old ≤ 128 }
    ensures put { OnOk result ((made : List Asked) × (end : ℕ) × AreOfText text.now made × ArePut made 0 end calls.old calls.new) }
    ensures only { HasCalls (codes ", " ++ text.now) 0 (length calls.old) → IsOk result }
{
    let mut place = 0;
    let mut left = Some(text);
    while let Some(parts) = left {
        let (part, others) = cut_at_comma(parts);
        place = put_part(calls, place, part)?;
        left = others;
    }
    Ok(())
}

/// A text's first part, and what follows the comma.
pub(crate) fn cut_at_comma(text: &str) -> (&str, Option<&str>)
    ensures parts { text.now ≡ result.0.now ++ behind_comma result.1 }
    ensures fewer { IfSome result.1 (λ others. length others.now < length text.now) }
    ensures first { (front rest : List ℕ) → text.now ≡ front ++ (codes ", " ++ rest) → (length result.0.now ≤ length front) × IsSome result.1 }
{
    match text.split_once(", ") {
        Some((part, others)) => (part, Some(others)),
        None => (text, None),
    }
}

/// Puts the call of one part into the list, from a position on, as often as the number before it says. Returns the
/// position after the last.
fn put_part<'a>(calls: &mut [Call], place: usize, part: &'a str) -> Result<usize, CallFault<'a>>
    requires place { place ≤ length calls.old }
    requires few { length calls.old ≤ 128 }
    ensures put { IfOk result (λ end. IsPartPut part.now place end calls.old calls.new) }
    ensures only { (made : List Asked) → ArePossible made → AreMade part.now made → place + length made ≤ length calls.old →
        IsOkAnd result (λ end. end ≡ place + length made) }
{
    let (count, words) = counted(part)?;
    let mut end = place;
    for _ in 0..count {
        if end >= calls.len() {
            return Err(CallFault::TooManyCalls);
        }
        calls[end] = call_of(words)?;
        end += 1;
    }
    Ok(end)
}

/// A text without the number before it, where it has one, and that number; otherwise 1.
pub(crate) fn counted(text: &str) -> Result<(u32, &str), CallFault<'_>>
    ensures counted { IfOk result (λ counted. IsCounted text.now counted.0 counted.1.now) }
    ensures only { (made : List Asked) → ArePossible made → AreMade text.now made → length made ≤ 128 →
        IsOkAnd result (λ counted. (length made ≡ counted.0) × AreCalls counted.1.now made) }
{
    if !begins_with_digit(text) {
        return Ok((1, text));
    }
    let (count, rest) = parted(text);
    match rest {
        Some(rest) => Ok((number_of(count, 1, 128)?, rest)),
        None => Ok((1, text)),
    }
}

fn begins_with_digit(text: &str) -> bool
    ensures { result ≡ is_ascii_digit (slice_index text.now 0) }
{
    text.as_bytes().first().is_some_and(u8::is_ascii_digit)
}
