//! Events on their way, from the rows where they are posted to the rows where they are received.

ghost use Rattle.std.specs.Prelude.{All};
ghost use Rattle.pictures.specs.Spans.{IsReceivedLater};

use crate::facts::waiting::posted_by;
use crate::numbers::bit_of;
use crate::spans::{Span, Spans};
use crate::transcript::{Turn, read_turn};
use std::alloc::Global;

/// The largest number of events on their way: as many as the queue holds, and one that is being broadcast.
const MOST: usize = 33;

/// An event that was posted to a process or to all.
#[derive(Clone, Copy)]
struct Posted {
    from: usize,
    to: Option<usize>,
    /// The number of the line whose call posts it, from 0 on.
    number: usize,
    /// The row of that line. `None` where it is before the first row.
    row: Option<usize>,
    /// A bit for each process that received it.
    receivers: u32,
}

/// An event from the row where it was posted to the one where it is received.
#[derive(Clone, Copy)]
pub struct Curve {
    pub from: usize,
    pub first: usize,
    pub to: usize,
    pub last: usize,
}

/// The events on their way, the oldest first.
#[derive(Drop)]
pub(crate) struct Posts {
    posted: Vec<Posted>,
    curves: Spans<Curve>,
    /// Whether there was memory for all that were posted so far.
    is_whole: bool,
}

/// The code of the event that the call of a line posts, and what it carries.
fn event_in<'a>(lines: &[&'a str], number: usize) -> Option<&'a str> {
    let turn = read_turn(lines.get(number)?)?;
    match posted_by(turn.call) {
        Some((_, event)) => Some(event),
        None => None,
    }
}

impl Posted {
    /// Whether a turn may be the one that receives it.
    fn is_received_by(&self, lines: &[&str], turn: &Turn<'_>) -> bool {
        let is_for = match self.to {
            Some(to) => to == turn.pid,
            None => self.receivers & bit_of(turn.pid) == 0,
        };
        is_for && event_in(lines, self.number) == Some(turn.stimulus)
    }
}

impl Span for Curve {
    ghost use Rattle.pictures.specs.Spans.{IsReceivedLater};

    ghost leads_on = { IsReceivedLater };

    fn ends_later(&self) -> bool {
        self.first < self.last
    }
}

impl Posts {
    pub(crate) fn new(alloc: Global) -> Self {
        Posts {
            posted: Vec::new(alloc),
            curves: Spans::new(alloc),
            is_whole: true,
        }
    }

    /// A call in the line of that number was accepted that was made in a row.
    pub(crate) fn carry_out(&mut self, turn: &Turn<'_>, number: usize, row: usize) {
        let Some((to, _)) = posted_by(turn.call) else {
            return;
        };
        if self.posted.len() >= MOST {
            self.forget_front(1);
        }
        let posted = Posted {
            from: turn.pid,
            to,
            number,
            row: Some(row),
            receivers: 0,
        };
        self.is_whole &= self.posted.push(posted).is_ok();
    }

    /// The `count` oldest events are no longer on their way.
    fn forget_front(&mut self, count: usize) {
        let count = count.min(self.posted.len());
        let _ = self.posted.drain(..count);
    }

    /// An event is received in a row. Those that were posted before it were received already, or by nobody.
    pub(crate) fn receive(&mut self, lines: &[&str], turn: &Turn<'_>, row: usize) {
        let Some(posted) = self.take(lines, turn) else {
            return;
        };
        self.curves.end(Curve {
            from: posted.from,
            first: posted.row.unwrap_or(row),
            to: turn.pid,
            last: row,
        });
    }

    /// A turn receives its event: those before it go, and so does it where it was posted to only one.
    fn take(&mut self, lines: &[&str], turn: &Turn<'_>) -> Option<Posted> {
        let index = self.position_of(lines, turn)?;
        let posted = self.posted.as_mut_slice().get_mut(index)?;
        posted.receivers |= bit_of(turn.pid);
        let posted = *posted;
        match posted.to {
            Some(_) => self.forget_front(index.saturating_add(1)),
            None => self.forget_front(index),
        }
        Some(posted)
    }

    /// Where the event that a turn receives is among those on their way, if it is there.
    fn position_of(&self, lines: &[&str], turn: &Turn<'_>) -> Option<usize> {
        for index in 0..self.posted.len() {
            if self.posted[index].is_received_by(lines, turn) {
                return Some(index);
            }
        }
        None
    }

    /// What was posted so far was posted in no row.
    pub(crate) fn forget_rows(&mut self) {
        self.curves.forget();
        for posted in self.posted.as_mut_slice() {
            posted.row = None;
        }
    }

    /// Whether there was memory for all of them so far.
    pub(crate) fn is_whole(&self) -> bool {
        self.is_whole & self.curves.is_whole()
    }

    /// The events that were received.
    pub(crate) fn finish(self) -> Vec<Curve>
        ensures { All IsReceivedLater result.items }
    {
        self.curves.finish()
    }
}
