//! All cells in one table. Those of the armed timers are linked, which makes the timer list.

ghost use Rattle.std.specs.Prelude.{◌≡◌, ◌≤◌, ◌^◌, true};
ghost use Rattle.timer_core.specs.Code.LinkedCells.{cell_in};
ghost use Rattle.timer_core.specs.Code.Neighbours.{Follows};
ghost use Rattle.timer_core.specs.Code.Outlooks.{IsOutlook, IsPassed};
ghost use Rattle.timer_core.specs.Code.Slots.{timer_at};
ghost use Rattle.timer_core.specs.Code.Conditions.{IsNamed};
ghost use Rattle.timer_core.specs.Deadlines.{earlier_of, next_deadline};
ghost use Rattle.timer_core.specs.Timers.{no_timers, cell_of, deadline, is_armed, armed_with, stop_timer, without_event_timers, without_callback_timers};

use crate::timer::{Cell, Timer};
use mote_types::event::Pid;
use std::marker::Model;

/// The number of timers: 12 for each of 16 applications.
const TIMERS: usize = 192;

/// A cell, whether its timer is on the timer list, and if so the slot of the next timer.
///
/// The cell's fields, and no `Cell`: they and the others take 16 bytes, where a `Cell` takes 16 alone.
#[derive(Clone, Copy, Drop)]
pub(crate) struct LinkedCell {
    start: u64,
    interval: u32,
    is_armed: bool,
    next: Option<u8>,
}

/// As at boot.
const ZERO: LinkedCell = LinkedCell {
    start: 0,
    interval: 0,
    is_armed: false,
    next: None,
};

impl LinkedCell {
    /// The cell.
    fn cell(self) -> Cell
        ensures { result ≡ cell_in self }
    {
        Cell {
            start: self.start,
            interval: self.interval,
        }
    }

    /// When the timer runs out, in ticks since boot.
    fn deadline(self) -> u64
        requires { self.start ≤ 2 ^ 63 }
        ensures { result ≡ deadline (cell_in self) }
    {
        self.cell().deadline()
    }
}

/// The earlier of two moments, where there is a second one.
fn sooner(moment: u64, other: Option<u64>) -> u64
    ensures { result ≡ earlier_of moment other }
{
    match other {
        Some(other) => moment.min(other),
        None => moment,
    }
}

/// How far a walk along the timer list has got.
#[derive(Clone, Copy, Drop)]
pub(crate) struct Passed {
    /// The slot of the last timer that was passed, or `None` before the first.
    pub(crate) last: Option<u8>,
    /// The earliest deadline of those that were passed.
    earliest: u64,
}

/// The look begins at the head.
pub(crate) const NOTHING_PASSED: Passed = Passed {
    last: None,
    earliest: u64::MAX,
};

/// What a look along the timer list finds.
#[derive(Clone, Copy, Drop)]
pub(crate) enum Outlook {
    /// The deadline of the timer at this slot has come. It follows those that were passed, and none of them is due.
    Due { slot: u8, passed: Passed },
    /// None is due, nor will be before this moment: the earliest deadline.
    NoneBefore(u64),
}

/// The cells of all timers, and the timer list: the first timer, each further one by the link of the one before. Links are
/// slots, so that a walk along them reads no names.
#[derive(Drop)]
pub(crate) struct TimerTable {
    cells: [LinkedCell; TIMERS],
    first: Option<u8>,
}

impl Model for TimerTable {
    ghost use Rattle.timer_core.specs.Code.Links.{timers_of, IsTable};
    ghost use Rattle.timer_core.specs.Timers.{Timers};

    ghost Value = { Timers };

    ghost view = { timers_of };

    ghost invariant = { IsTable };
}

impl TimerTable {
    /// All cells are zero, and no timer is armed.
    pub(crate) fn new() -> Self
        ensures { result ≡ no_timers }
    {
        TimerTable {
            cells: [ZERO; TIMERS],
            first: None,
        }
    }

    /// The timer's cell.
    pub(crate) fn cell(&self, timer: Timer) -> Cell
        requires { IsNamed timer }
        ensures value { result ≡ cell_of timer self.now }
        ensures start { result.start ≤ 2 ^ 63 }
    {
        self.cells[timer.slot()].cell()
    }

    /// Whether the timer is on the list.
    pub(crate) fn is_armed(&self, timer: Timer) -> bool
        requires { IsNamed timer }
        ensures { result ≡ is_armed timer self.now }
    {
        self.cells[timer.slot()].is_armed
    }

    /// Gives the timer this cell, and puts it on the list: at its old position, or at the head if it is new there.
    pub(crate) fn arm(&mut self, timer: Timer, cell: Cell)
        requires named { IsNamed timer }
        requires start { cell.start ≤ 2 ^ 63 }
        ensures armed { self.new ≡ armed_with timer cell self.old }
        ensures given { cell_of timer self.new ≡ cell }
    {
        let slot = timer.slot();
        if self.is_armed(timer) {
            self.cells[slot] = LinkedCell {
                start: cell.start,
                interval: cell.interval,
                ..self.cells[slot]
            };
        } else {
            self.cells[slot] = LinkedCell {
                start: cell.start,
                interval: cell.interval,
                is_armed: true,
                next: self.first,
            };
            self.first = Some(slot as u8);
        }
    }

    /// The slot of the timer before an armed one on the list, or `None` where that one is the head.
    fn before(&self, timer: Timer) -> Option<u8>
        requires named { IsNamed timer }
        requires armed { is_armed timer self.now ≡ true }
        ensures { Follows result timer self.now.armed }
    {
        let slot = timer.slot() as u8;
        let mut before = None;
        let mut link = self.first;
        while let Some(other) = link {
            if other == slot {
                return before;
            }
            before = link;
            link = self.cells[other as usize].next;
        }
        before
    }

    /// Removes the timer at this slot, which is right after `before`, from the list.
    pub(crate) fn unlink(&mut self, slot: u8, before: Option<u8>)
        requires named { IsNamed (timer_at slot) }
        requires follows { Follows before (timer_at slot) self.old.armed }
        ensures { self.new ≡ stop_timer (timer_at slot) self.old }
    {
        let following = self.cells[slot as usize].next;
        self.cells[slot as usize].is_armed = false;
        match before {
            Some(before) => self.cells[before as usize].next = following,
            None => self.first = following,
        }
    }

    /// The timer is off the list.
    pub(crate) fn disarm(&mut self, timer: Timer)
        requires { IsNamed timer }
        ensures { self.new ≡ stop_timer timer self.old }
    {
        if self.is_armed(timer) {
            let before = self.before(timer);
            self.unlink(timer.slot() as u8, before);
        }
    }

    /// Looks for a due timer in one walk along the list, which continues after those that were passed, unless one of them
    /// may be due by now.
    pub(crate) fn look(&self, clock: u64, passed: Passed) -> Outlook
        requires { IsPassed passed self.now }
        ensures { IsOutlook clock self.now result }
    {
        let mut passed = if clock < passed.earliest {
            passed
        } else {
            NOTHING_PASSED
        };
        let mut link = match passed.last {
            Some(last) => self.cells[last as usize].next,
            None => self.first,
        };
        while let Some(slot) = link {
            let deadline = self.cells[slot as usize].deadline();
            if deadline <= clock {
                return Outlook::Due { slot, passed };
            }
            passed = Passed {
                last: link,
                earliest: passed.earliest.min(deadline),
            };
            link = self.cells[slot as usize].next;
        }
        Outlook::NoneBefore(passed.earliest)
    }

    /// The earliest deadline of the armed timers, if any is armed.
    pub(crate) fn next_deadline(&self) -> Option<u64>
        ensures { result ≡ next_deadline self.now }
    {
        let mut earliest = None;
        let mut link = self.first;
        while let Some(slot) = link {
            let linked = self.cells[slot as usize];
            earliest = Some(sooner(linked.deadline(), earliest));
            link = linked.next;
        }
        earliest
    }

    /// The event timers of `pid` are off the list.
    pub(crate) fn disarm_events(&mut self, pid: Pid)
        requires first { 4 ≤ pid.0 }
        requires last { pid.0 ≤ 19 }
        ensures { self.new ≡ without_event_timers pid.0 self.old }
    {
        let _ = &self.first;
        for number in 0..8 {
            self.disarm(Timer::Event(pid, number));
        }
    }

    /// The callback timers of `pid` are off the list.
    pub(crate) fn disarm_callbacks(&mut self, pid: Pid)
        requires first { 4 ≤ pid.0 }
        requires last { pid.0 ≤ 19 }
        ensures { self.new ≡ without_callback_timers pid.0 self.old }
    {
        let _ = &self.first;
        for number in 0..4 {
            self.disarm(Timer::Callback(pid, number));
        }
    }
}
