//! The timers of all applications.

ghost use Rattle.std.specs.Prelude.{◌≡◌, ◌<◌, ◌≤◌, ◌+◌, ◌^◌, ℕ, true, false, not, is_some, IfOk, IfErr, IfSome};
ghost use Rattle.std.specs.Option.{option_map};
ghost use Rattle.mote_types.specs.declared.refusal.Refusal.{Refusal};
ghost use Rattle.timer_core.specs.declared.timer.Timer.{Timer};
ghost use Rattle.timer_core.specs.Code.Armings.{present_arming, is_present_arming, renumbered, all_renumbered};
ghost use Rattle.timer_core.specs.Code.Conditions.{IsNamed};
ghost use Rattle.timer_core.specs.Code.NumberedTimers.{at_boot, due_of, IsDue};
ghost use Rattle.timer_core.specs.Deadlines.{next_deadline};
ghost use Rattle.timer_core.specs.Timers.{is_armed, set_timer, restart_timer, reset_timer, can_reset, stop_timer, first_due, without_event_timers, without_callback_timers};
ghost use Rattle.timer_core.specs.Code.DueTimers.{without_first_due};

use crate::due::Due;
use crate::numbers::ArmingNumbers;
use crate::timer::{Cell, Timer};
use crate::watched::WatchedTable;
use mote_types::event::Pid;
use mote_types::refusal::Refusal;
use std::marker::Model;

/// The latest clock, and the latest deadline that a reset may set, in ticks since boot (this project's profile).
pub const LATEST: u64 = 1 << 63;

/// All timers: a cell of each event timer and callback timer, one list of those that are armed, and an arming number of
/// each callback timer. Allocates no memory.
///
/// Source: etimer.h and ctimer.h of Contiki-NG. The number of each kind, deadlines in whole numbers, and that setting
/// and stopping a callback timer cancels its earlier expiries are this project's profile.
#[derive(Drop)]
pub struct Timers {
    table: WatchedTable,
    numbers: ArmingNumbers,
}

impl Model for Timers {
    ghost use Rattle.timer_core.specs.Code.NumberedTimers.{NumberedTimers};

    ghost Value = { NumberedTimers };

    ghost view = { λ timers. record { timers = timers.table; armings = timers.numbers } };
}

impl Timers {
    /// All cells are zero, and no timer is armed.
    pub fn new() -> Self
        ensures { result ≡ at_boot }
    {
        Timers {
            table: WatchedTable::new(),
            numbers: ArmingNumbers::new(),
        }
    }

    /// Arms timer `number` of `pid`: it runs out `interval` ticks after the present `clock` (`etimer_set`).
    ///
    /// A timer that is armed already keeps its position on the list; otherwise it becomes the head.
    pub fn set(&mut self, clock: u64, pid: Pid, number: u8, interval: u32)
        requires clock { clock ≤ 2 ^ 63 }
        requires named { IsNamed (Timer.Event pid number) }
        ensures { self.new ≡ record self.old { timers = set_timer clock (Timer.Event pid number) interval self.old.timers } }
    {
        let cell = Cell {
            start: clock,
            interval,
        };
        self.table.arm(Timer::Event(pid, number), cell);
    }

    /// Removes timer `number` of `pid` from the list if it is there (`etimer_stop`). Its cell is unchanged.
    pub fn stop(&mut self, pid: Pid, number: u8)
        requires { IsNamed (Timer.Event pid number) }
        ensures { self.new ≡ record self.old { timers = stop_timer (Timer.Event pid number) self.old.timers } }
    {
        self.table.disarm(Timer::Event(pid, number));
    }

    /// Arms timer `number` of `pid` with the interval that follows its last one: it begins where that one ended, so that no
    /// tick is lost (`etimer_reset`).
    ///
    /// # Errors
    /// `Range` where the new deadline would be later than 2^63. Nothing is changed then.
    pub fn reset(&mut self, pid: Pid, number: u8) -> Result<(), Refusal>
        requires { IsNamed (Timer.Event pid number) }
        ensures possible { IfOk result (λ _. can_reset (Timer.Event pid number) self.old.timers ≡ true) }
        ensures accepted { IfOk result (λ _. self.new ≡ record self.old { timers = reset_timer (Timer.Event pid number) self.old.timers }) }
        ensures too_late { IfErr result (λ _. can_reset (Timer.Event pid number) self.old.timers ≡ false) }
        ensures reason { IfErr result (λ refusal. refusal ≡ Refusal.Range) }
        ensures unchanged { IfErr result (λ _. self.new ≡ self.old) }
    {
        let timer = Timer::Event(pid, number);
        let cell = self.table.cell(timer);
        let start = cell.start + cell.interval as u64;
        if start + cell.interval as u64 > LATEST {
            return Err(Refusal::Range);
        }
        let next = Cell {
            start,
            interval: cell.interval,
        };
        self.table.arm(timer, next);
        Ok(())
    }

    /// Arms timer `number` of `pid` with its interval, from the present `clock` on (`etimer_restart`).
    pub fn restart(&mut self, clock: u64, pid: Pid, number: u8)
        requires clock { clock ≤ 2 ^ 63 }
        requires named { IsNamed (Timer.Event pid number) }
        ensures { self.new ≡ record self.old { timers = restart_timer clock (Timer.Event pid number) self.old.timers } }
    {
        let timer = Timer::Event(pid, number);
        let cell = Cell {
            start: clock,
            interval: self.table.cell(timer).interval,
        };
        self.table.arm(timer, cell);
    }

    /// Whether timer `number` of `pid` is not on the list: it was never armed, or ran out, or was stopped
    /// (`etimer_expired`; that a timer is expired where it is not on the list is this project's profile).
    pub fn expired(&self, pid: Pid, number: u8) -> bool
        requires { IsNamed (Timer.Event pid number) }
        ensures { result ≡ not (is_armed (Timer.Event pid number) self.now.timers) }
    {
        !self.table.is_armed(Timer::Event(pid, number))
    }

    /// Arms callback timer `number` of `pid`, as `set` arms a timer (`ctimer_set`). An expiry that was taken earlier no
    /// longer counts: the callback timer gets a new arming number, and no other one changes.
    pub fn set_callback(&mut self, clock: u64, pid: Pid, number: u8, interval: u32)
        requires clock { clock ≤ 2 ^ 63 }
        requires named { IsNamed (Timer.Callback pid number) }
        requires few { self.old.armings.drawn < 2 ^ 60 }
        ensures changed { self.new ≡ record {
          timers = set_timer clock (Timer.Callback pid number) interval self.old.timers;
          armings = renumbered pid.0 self.old.armings number;
        } }
        ensures cancelled { (arming : ℕ) → arming < self.old.armings.drawn
            → is_present_arming pid.0 number arming self.new.armings ≡ false }
        ensures others { (p c : ℕ) → 4 ≤ p → c < 4 → (p ≡ pid.0 → c ≡ number → ⊥)
            → present_arming p c self.new.armings ≡ present_arming p c self.old.armings }
    {
        self.numbers.renew(pid, number);
        let cell = Cell {
            start: clock,
            interval,
        };
        self.table.arm(Timer::Callback(pid, number), cell);
    }

    /// Removes callback timer `number` of `pid` from the list if it is there (`ctimer_stop`). An expiry that was taken
    /// earlier no longer counts: the callback timer gets a new arming number, and no other one changes.
    pub fn stop_callback(&mut self, pid: Pid, number: u8)
        requires named { IsNamed (Timer.Callback pid number) }
        requires few { self.old.armings.drawn < 2 ^ 60 }
        ensures changed { self.new ≡ record {
          timers = stop_timer (Timer.Callback pid number) self.old.timers;
          armings = renumbered pid.0 self.old.armings number;
        } }
        ensures cancelled { (arming : ℕ) → arming < self.old.armings.drawn
            → is_present_arming pid.0 number arming self.new.armings ≡ false }
        ensures others { (p c : ℕ) → 4 ≤ p → c < 4 → (p ≡ pid.0 → c ≡ number → ⊥)
            → present_arming p c self.new.armings ≡ present_arming p c self.old.armings }
    {
        self.numbers.renew(pid, number);
        self.table.disarm(Timer::Callback(pid, number));
    }

    /// Removes the first due timer, in list order, from the list, and returns it; `None` only where nothing is due. A
    /// callback timer's arming number stays the present one until the callback timer is set, stopped or forgotten.
    pub fn take_due(&mut self, clock: u64) -> Option<Due>
        ensures answer { result ≡ option_map (due_of self.old.armings) (first_due clock self.old.timers) }
        ensures taken { self.new ≡ record self.old { timers = without_first_due clock self.old.timers } }
        ensures known { IfSome result (IsDue self.new.armings) }
    {
        match self.table.take_due(clock)? {
            Timer::Event(pid, number) => Some(Due::Timer { pid, number }),
            Timer::Callback(pid, number) => {
                let arming = self.numbers.present(pid, number);
                Some(Due::Callback {
                    pid,
                    number,
                    arming,
                })
            }
        }
    }

    /// Whether a timer on the list is due. Changes nothing that contracts see. Where nothing is due, the earliest deadline is
    /// known from then on, and no list is walked before it.
    #[inline]
    pub fn any_due(&mut self, clock: u64) -> bool
        ensures answer { result ≡ is_some (first_due clock self.old.timers) }
        ensures kept { self.new ≡ self.old }
    {
        self.table.is_any_due(clock)
    }

    /// The earliest deadline of the armed timers, if any is armed.
    pub fn next_deadline(&self) -> Option<u64>
        ensures { result ≡ next_deadline self.now.timers }
    {
        self.table.next_deadline()
    }

    /// Whether that is the number that callback timer `number` of `pid` has now, so that an expiry with it counts.
    pub fn is_present_arming(&self, pid: Pid, number: u8, arming: u64) -> bool
        requires { IsNamed (Timer.Callback pid number) }
        ensures { result ≡ is_present_arming pid.0 number arming self.now.armings }
    {
        self.numbers.present(pid, number) == arming
    }

    /// Removes all timers of `pid` from the list. Their cells and its callback timers are unchanged.
    pub fn forget(&mut self, pid: Pid)
        requires first { 4 ≤ pid.0 }
        requires last { pid.0 ≤ 19 }
        ensures { self.new ≡ record self.old { timers = without_event_timers pid.0 self.old.timers } }
    {
        self.table.disarm_events(pid);
    }

    /// Removes all callback timers of `pid` from the list. Expiries of them that were taken earlier no longer count: each
    /// gets a new arming number. Those of the other applications keep theirs.
    pub fn forget_callbacks(&mut self, pid: Pid)
        requires first { 4 ≤ pid.0 }
        requires last { pid.0 ≤ 19 }
        requires few { self.old.armings.drawn < 2 ^ 60 }
        ensures changed { self.new ≡ record {
          timers = without_callback_timers pid.0 self.old.timers;
          armings = all_renumbered pid.0 self.old.armings;
        } }
        ensures cancelled { (c arming : ℕ) → c < 4 → arming < self.old.armings.drawn
            → is_present_arming pid.0 c arming self.new.armings ≡ false }
        ensures others { (p c : ℕ) → 4 ≤ p → c < 4 → (p ≡ pid.0 → ⊥)
            → present_arming p c self.new.armings ≡ present_arming p c self.old.armings }
    {
        self.numbers.renew_all(pid);
        self.table.disarm_callbacks(pid);
    }
}
