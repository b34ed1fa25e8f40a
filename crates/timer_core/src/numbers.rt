//! The arming numbers of the callback timers.

ghost use Rattle.std.specs.Prelude.{◌≡◌, ◌<◌, ◌≤◌, ◌^◌, ℕ, false};
ghost use Rattle.timer_core.specs.Code.Armings.{no_armings, callback_slot, present_arming, is_present_arming, renumbered, all_renumbered};
ghost use Rattle.timer_core.specs.Code.Conditions.{IsNamed};
ghost use Rattle.timer_core.specs.declared.timer.Timer.{Timer};

use mote_types::event::Pid;
use std::marker::Model;

/// The number of callback timers: 4 for each of 16 applications.
const CALLBACK_TIMERS: usize = 64;

/// The present number of each callback timer, and the next number to draw.
#[derive(Drop)]
pub(crate) struct ArmingNumbers {
    present: [u64; CALLBACK_TIMERS],
    drawn: u64,
}

impl Model for ArmingNumbers {
    ghost use Rattle.timer_core.specs.Code.Armings.{Armings};
    ghost use Rattle.timer_core.specs.Code.Numbered.{IsNumbered};

    ghost Value = { Armings };

    ghost view = { λ numbers. record { present = numbers.present; drawn = numbers.drawn } };

    ghost invariant = { λ numbers. IsNumbered (record { present = numbers.present; drawn = numbers.drawn }) };
}

/// The slot of a callback timer's arming number.
fn slot(pid: Pid, number: u8) -> usize
    requires { IsNamed (Timer.Callback pid number) }
    ensures value { result ≡ callback_slot pid.0 number }
    ensures within { result < 64 }
{
    4 * (pid.0 as usize - 4) + number as usize
}

impl ArmingNumbers {
    /// Each has number 0, which no arming gets.
    pub(crate) fn new() -> Self
        ensures { result ≡ no_armings }
    {
        ArmingNumbers {
            present: [0; CALLBACK_TIMERS],
            drawn: 1,
        }
    }

    /// The callback timer's number.
    pub(crate) fn present(&self, pid: Pid, number: u8) -> u64
        requires { IsNamed (Timer.Callback pid number) }
        ensures value { result ≡ present_arming pid.0 number self.now }
        ensures drawn { result < self.now.drawn }
    {
        self.present[slot(pid, number)]
    }

    /// The callback timer gets a number that was never used.
    pub(crate) fn renew(&mut self, pid: Pid, number: u8)
        requires named { IsNamed (Timer.Callback pid number) }
        requires few { self.old.drawn < 2 ^ 63 }
        ensures changed { self.new ≡ renumbered pid.0 self.old number }
        ensures cancelled { (arming : ℕ) → arming < self.old.drawn → is_present_arming pid.0 number arming self.new ≡ false }
        ensures others { (p c : ℕ) → 4 ≤ p → c < 4 → (p ≡ pid.0 → c ≡ number → ⊥)
            → present_arming p c self.new ≡ present_arming p c self.old }
    {
        self.present[slot(pid, number)] = self.drawn;
        self.drawn += 1;
    }

    /// Each callback timer of `pid` gets a number that was never used.
    pub(crate) fn renew_all(&mut self, pid: Pid)
        requires first { 4 ≤ pid.0 }
        requires last { pid.0 ≤ 19 }
        requires few { self.old.drawn < 2 ^ 60 }
        ensures changed { self.new ≡ all_renumbered pid.0 self.old }
        ensures cancelled { (c arming : ℕ) → c < 4 → arming < self.old.drawn → is_present_arming pid.0 c arming self.new ≡ false }
        ensures others { (p c : ℕ) → 4 ≤ p → c < 4 → (p ≡ pid.0 → ⊥) → present_arming p c self.new ≡ present_arming p c self.old }
    {
        let _ = &self.drawn;
        for number in 0..4 {
            self.renew(pid, number);
        }
    }
}
