//! The events that wait in the queue, as far as a transcript shows: those that applications posted. The kernel's events have no line
//! before they are received.

ghost use Rattle.std.specs.Prelude.{◌≡◌, [], ◌++◌, codes, map, IfOk, IfSome};
ghost use Rattle.std.specs.List.{before_first};
ghost use Rattle.std.specs.Str.Parse.{digits_value, without_leading_plus};
ghost use Rattle.pictures.specs.Ascending.{MayAppend};
ghost use Rattle.pictures.specs.Posts.{Posts};
ghost use Rattle.pictures.specs.Words.{is_space};

use crate::facts::accepted::Accepted;
use crate::numbers::bit_of;
use crate::transcript::{Origin, Turn};
use std::alloc::{AllocError, Global};
use std::marker::Model;

/// The number of events that a queue has room for.
const PLACES: usize = 32;

/// An event that waits from a line on, the one whose call posts it, and up to another one.
#[derive(Clone, Copy)]
pub struct Wait {
    /// The number of the line whose call posts it, from 0 on.
    pub line: usize,
    /// The number of the line at which it has left. `None` where no line says so.
    pub end: Option<usize>,
}

/// An event that was posted.
#[derive(Clone, Copy)]
struct Posted<'a> {
    line: usize,
    /// The process that it was posted to, or all.
    to: Option<usize>,
    /// Its code and what it carries.
    event: &'a str,
}

/// A broadcast that is being delivered, with a bit for each process that received it.
#[derive(Clone, Copy)]
struct Broadcast<'a> {
    event: &'a str,
    receivers: u32,
}

/// The event queue after the lines so far. Contracts see the numbers of the lines that post: of the events that waited, and of those that
/// still do.
#[derive(Drop)]
pub(crate) struct Queue<'a> {
    posted: Vec<Posted<'a>>,
    broadcast: Option<Broadcast<'a>>,
    waits: Vec<Wait>,
}

impl<'a> Model for Queue<'a> {
    ghost use Rattle.std.specs.Prelude.{ℕ, List, ◌++◌, map};

    ghost Value = { List ℕ };

    ghost view = { λ queue. map (λ wait. wait.line) queue.waits.items ++ map (λ posted. posted.line) queue.posted.items };
}

/// What is in a text before its first space, and what after it.
fn parted(text: &str) -> Option<(&str, &str)>
    ensures whole { IfSome result (λ parts. text.now ≡ parts.0.now ++ codes " " ++ parts.1.now) }
    ensures word { IfSome result (λ parts. parts.0.now ≡ before_first is_space text.now) }
{
    text.split_once(' ')
}

/// The number that a word writes.
fn number_in(word: &str) -> Option<usize>
    ensures { IfSome result (λ number. number ≡ digits_value 10 (without_leading_plus word.now)) }
{
    word.parse::<usize>().ok()
}

/// Whom a call posts an event to, and its code and what it carries. `None` where it posts nothing.
pub(crate) fn posted_by(call: &str) -> Option<(Option<usize>, &str)>
    ensures { IfSome result (λ posted. Posts call.now posted.0 posted.1.now) }
{
    let (word, rest) = parted(call)?;
    match word {
        "broadcast" => Some((None, rest)),
        "post" => {
            let (to, event) = parted(rest)?;
            let to = number_in(to)?;
            Some((Some(to), event))
        }
        _ => None,
    }
}

impl Posted<'_> {
    /// Whether a turn may be its delivery.
    fn is_received_by(&self, turn: &Turn<'_>) -> bool {
        let is_for = match self.to {
            Some(to) => to == turn.pid,
            None => true,
        };
        is_for && self.event == turn.stimulus
    }
}

impl<'a> Queue<'a> {
    pub(crate) fn new(alloc: Global) -> Self
        ensures { result ≡ [] }
    {
        Queue {
            posted: Vec::new(alloc),
            broadcast: None,
            waits: Vec::new(alloc),
        }
    }

    /// A call in the line of that number was accepted.
    pub(crate) fn carry_out(&mut self, call: &Accepted<'a>, line: usize) -> Result<(), AllocError>
        ensures { IfOk result (λ _. MayAppend line self.old self.new) }
    {
        let Some((to, event)) = posted_by(call.call) else {
            return Ok(());
        };
        if self.posted.len() >= PLACES {
            self.end_front(1, line)?;
        }
        self.posted.push(Posted { line, to, event })?;
        Ok(())
    }

    /// The oldest waiting event, if there is one, no longer waits from a line on.
    fn end_first(&mut self, line: usize) -> Result<(), AllocError>
        ensures { IfOk result (λ _. self.new ≡ self.old) }
    {
        if self.posted.is_empty() {
            return Ok(());
        }
        let event = self.posted.remove(0);
        self.waits.push(Wait {
            line: event.line,
            end: Some(line),
        })?;
        Ok(())
    }

    /// The `count` oldest events no longer wait from a line on.
    fn end_front(&mut self, count: usize, line: usize) -> Result<(), AllocError>
        ensures { IfOk result (λ _. self.new ≡ self.old) }
    {
        for _event in 0..count {
            self.end_first(line)?;
        }
        Ok(())
    }

    /// An input is submitted: the mote was at rest, so no event waits.
    pub(crate) fn take_input(&mut self, line: usize) -> Result<(), AllocError>
        ensures { IfOk result (λ _. self.new ≡ self.old) }
    {
        self.broadcast = None;
        let count = self.posted.len();
        self.end_front(count, line)
    }

    /// Whether the present broadcast is delivered once more. Then its process is stored.
    fn goes_on(&mut self, turn: &Turn<'_>) -> bool
        ensures { self.new ≡ self.old }
    {
        let bit = bit_of(turn.pid);
        match &mut self.broadcast {
            Some(broadcast) if broadcast.event == turn.stimulus && broadcast.receivers & bit == 0 =>
                {
                    broadcast.receivers |= bit;
                    true
                }
            _ => false,
        }
    }

    /// A turn in the line of that number: its event left the queue, with those before it that nobody received.
    pub(crate) fn take_turn(&mut self, turn: &Turn<'a>, line: usize) -> Result<(), AllocError>
        ensures { IfOk result (λ _. self.new ≡ self.old) }
    {
        if turn.origin != Origin::Event || self.goes_on(turn) {
            return Ok(());
        }
        match self.receive(turn) {
            Some(index) => self.end_front(index.saturating_add(1), line),
            None => Ok(()),
        }
    }

    /// Where the event of a turn waits, if it does. If it was posted to all, it is being delivered from now on.
    fn receive(&mut self, turn: &Turn<'a>) -> Option<usize>
        ensures { self.new ≡ self.old }
    {
        for index in 0..self.posted.len() {
            let posted = self.posted[index];
            if posted.is_received_by(turn) {
                self.broadcast = match posted.to {
                    Some(_) => None,
                    None => Some(Broadcast {
                        event: turn.stimulus,
                        receivers: bit_of(turn.pid),
                    }),
                };
                return Some(index);
            }
        }
        None
    }

    /// All events that waited; the last ones still do.
    pub(crate) fn finish(self) -> Result<Vec<Wait>, AllocError>
        ensures { IfOk result (λ waits. map (λ wait. wait.line) waits.items ≡ self.entry) }
    {
        let Queue {
            posted,
            mut waits,
            ..
        } = self;
        for index in 0..posted.len() {
            waits.push(Wait {
                line: posted[index].line,
                end: None,
            })?;
        }
        Ok(waits)
    }
}
