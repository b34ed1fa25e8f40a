//! The timer table, the moment from which on one of its timers may be due, and how far the search for one has got.

ghost use Rattle.std.specs.Prelude.{◌≡◌, ◌≤◌, ◌^◌, is_some, IfSome};
ghost use Rattle.timer_core.specs.Code.Conditions.{IsNamed};
ghost use Rattle.timer_core.specs.Code.DueTimers.{without_first_due};
ghost use Rattle.timer_core.specs.Deadlines.{next_deadline};
ghost use Rattle.timer_core.specs.Timers.{no_timers, cell_of, is_armed, armed_with, stop_timer, first_due, without_event_timers, without_callback_timers};

use crate::table::{NOTHING_PASSED, Outlook, Passed, TimerTable};
use crate::timer::{Cell, Timer};
use mote_types::event::Pid;
use std::marker::Model;

/// The timer table, and what saves walks along the timer list.
///
/// Before this moment nothing is due, so no walk is needed. Arming a timer may bring the moment forward. Where it has come and
/// nothing is due, the timers that brought it forward were armed anew or left the list: the walk that finds nothing due has
/// found the earliest deadline.
///
/// A walk that has found a due timer continues from there, so that it passes no timer twice. After a timer was armed or
/// stopped the next walk begins at the head.
#[derive(Drop)]
pub(crate) struct WatchedTable {
    table: TimerTable,
    /// The moment.
    due_from: u64,
    /// Those that the walk has passed.
    passed: Passed,
}

impl Model for WatchedTable {
    ghost use Rattle.timer_core.specs.Code.Outlooks.{IsPassed};
    ghost use Rattle.timer_core.specs.Code.Watched.{NoneDueBefore};
    ghost use Rattle.timer_core.specs.Timers.{Timers};

    ghost Value = { Timers };

    ghost view = { λ watched. watched.table };

    ghost invariant = { λ watched. NoneDueBefore watched.due_from watched.table × IsPassed watched.passed watched.table };
}

impl WatchedTable {
    /// All cells are zero, and no timer is armed.
    pub(crate) fn new() -> Self
        ensures { result ≡ no_timers }
    {
        WatchedTable {
            table: TimerTable::new(),
            due_from: u64::MAX,
            passed: NOTHING_PASSED,
        }
    }

    /// The timer's cell.
    pub(crate) fn cell(&self, timer: Timer) -> Cell
        requires { IsNamed timer }
        ensures value { result ≡ cell_of timer self.now }
        ensures start { result.start ≤ 2 ^ 63 }
    {
        self.table.cell(timer)
    }

    /// Whether the timer is on the list.
    pub(crate) fn is_armed(&self, timer: Timer) -> bool
        requires { IsNamed timer }
        ensures { result ≡ is_armed timer self.now }
    {
        self.table.is_armed(timer)
    }

    /// Gives the timer this cell, and puts it on the list: at its old position, or at the head if it is new there.
    pub(crate) fn arm(&mut self, timer: Timer, cell: Cell)
        requires named { IsNamed timer }
        requires start { cell.start ≤ 2 ^ 63 }
        ensures { self.new ≡ armed_with timer cell self.old }
    {
        self.table.arm(timer, cell);
        self.due_from = self.due_from.min(cell.deadline());
        self.passed = NOTHING_PASSED;
    }

    /// The timer is off the list.
    pub(crate) fn disarm(&mut self, timer: Timer)
        requires { IsNamed timer }
        ensures { self.new ≡ stop_timer timer self.old }
    {
        self.table.disarm(timer);
        self.passed = NOTHING_PASSED;
    }

    /// The event timers of `pid` are off the list.
    pub(crate) fn disarm_events(&mut self, pid: Pid)
        requires first { 4 ≤ pid.0 }
        requires last { pid.0 ≤ 19 }
        ensures { self.new ≡ without_event_timers pid.0 self.old }
    {
        self.table.disarm_events(pid);
        self.passed = NOTHING_PASSED;
    }

    /// The callback timers of `pid` are off the list.
    pub(crate) fn disarm_callbacks(&mut self, pid: Pid)
        requires first { 4 ≤ pid.0 }
        requires last { pid.0 ≤ 19 }
        ensures { self.new ≡ without_callback_timers pid.0 self.old }
    {
        self.table.disarm_callbacks(pid);
        self.passed = NOTHING_PASSED;
    }

    /// As `is_any_due`, from the moment on before which nothing is due.
    // Out of line: most ticks are before the moment.
    #[inline(never)]
    fn look_for_due(&mut self, clock: u64) -> bool
        ensures answer { result ≡ is_some (first_due clock self.old) }
        ensures kept { self.new ≡ self.old }
    {
        match self.table.look(clock, self.passed) {
            Outlook::Due { passed, .. } => {
                self.passed = passed;
                true
            }
            Outlook::NoneBefore(moment) => {
                self.due_from = moment;
                false
            }
        }
    }

    /// Whether a timer on the list is due.
    #[inline]
    pub(crate) fn is_any_due(&mut self, clock: u64) -> bool
        ensures answer { result ≡ is_some (first_due clock self.old) }
        ensures kept { self.new ≡ self.old }
    {
        clock >= self.due_from && self.look_for_due(clock)
    }

    /// The earliest deadline of the armed timers, if any is armed.
    pub(crate) fn next_deadline(&self) -> Option<u64>
        ensures { result ≡ next_deadline self.now }
    {
        self.table.next_deadline()
    }

    /// Removes the first timer on the list whose deadline has come.
    pub(crate) fn take_due(&mut self, clock: u64) -> Option<Timer>
        ensures first { result ≡ first_due clock self.old }
        ensures named { IfSome result IsNamed }
        ensures taken { self.new ≡ without_first_due clock self.old }
    {
        if clock < self.due_from {
            return None;
        }
        match self.table.look(clock, self.passed) {
            Outlook::Due { slot, passed } => {
                self.table.unlink(slot, passed.last);
                self.passed = passed;
                Some(Timer::at(slot))
            }
            Outlook::NoneBefore(moment) => {
                self.due_from = moment;
                None
            }
        }
    }
}
