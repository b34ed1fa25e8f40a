//! The names of the timers, and the cell of each.

ghost use Rattle.std.specs.Prelude.{◌≡◌, ◌<◌, ◌≤◌, ◌^◌};
ghost use Rattle.timer_core.specs.Code.Slots.{slot_of, timer_at};
ghost use Rattle.timer_core.specs.Code.Conditions.{IsNamed};
ghost use Rattle.timer_core.specs.Timers.{deadline};

use mote_types::event::Pid;

/// The name of a timer: whose it is, and its number.
#[derive(Clone, Copy, Drop)]
pub enum Timer {
    /// An event timer (`etimer` of Contiki-NG), numbered from 0 to 7 (this project's profile).
    Event(Pid, u8),
    /// A callback timer (`ctimer` of Contiki-NG), numbered from 0 to 3 (this project's profile).
    Callback(Pid, u8),
}

/// The cell of a timer, all in ticks: `timer.h` of Contiki-NG keeps the same two.
#[derive(Clone, Copy, Drop)]
pub struct Cell {
    /// When the interval began, since boot.
    pub start: u64,
    /// Its length. The deadline is `start + interval`.
    pub interval: u32,
}

impl Cell {
    /// When it runs out, in ticks since boot.
    pub(crate) fn deadline(self) -> u64
        requires { self.start ≤ 2 ^ 63 }
        ensures { result ≡ deadline self }
    {
        self.start + self.interval as u64
    }
}

impl Timer {
    /// The timer whose cell is at that slot of the table.
    pub(crate) fn at(slot: u8) -> Timer
        requires { slot < 192 }
        ensures { result ≡ timer_at slot }
    {
        let pid = Pid(4 + slot / 12);
        let number = slot % 12;
        if number < 8 {
            Timer::Event(pid, number)
        } else {
            Timer::Callback(pid, number - 8)
        }
    }

    /// The slot of its cell in the table.
    pub(crate) fn slot(self) -> usize
        requires { IsNamed self }
        ensures value { result ≡ slot_of self }
        ensures within { result < 192 }
    {
        match self {
            Timer::Event(pid, number) => 12 * (pid.0 as usize - 4) + number as usize,
            Timer::Callback(pid, number) => 12 * (pid.0 as usize - 4) + 8 + number as usize,
        }
    }
}
