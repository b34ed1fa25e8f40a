//! A walk over the process list as it was when the walk began.
ghost use Rattle.std.specs.Prelude.{◌≡◌, [], ◌∷◌, ◌≤◌, ◌<◌, length, drop, slice_get, option_map, MatchOption};
ghost use Rattle.mote_types.specs.declared.event.Pid.{Pid as At};
ghost use Rattle.process_core.specs.Code.Walks.{from_application, from_marked, is_kernel_next};
ghost use Rattle.process_core.specs.Idle.{is_empty};

use crate::process_list::ProcessList;
use crate::process_numbers::ProcessNumbers;
use mote_types::event::{FIRST_APPLICATION, Pid};
use std::marker::Model;

/// The numbers of the processes that are left, in list order: a copy of the list's numbers, and a cursor.
#[derive(Drop)]
pub struct Walk {
    numbers: ProcessNumbers,
    at: usize,
}

impl Model for Walk {
    ghost use Rattle.std.specs.Prelude.{List, ℕ, drop, length, ◌≤◌};

    ghost Value = { List ℕ };

    ghost view = { λ w. drop w.at w.numbers.items };

    ghost invariant = { λ w. w.at ≤ length w.numbers.items };
}

impl Walk {
    /// A walk over no process.
    pub fn none() -> Walk
        ensures { result ≡ [] }
    {
        Walk::over(ProcessNumbers::new())
    }

    /// A walk over these.
    pub fn over(numbers: ProcessNumbers) -> Walk
        ensures { result ≡ numbers.items }
    {
        Walk { numbers, at: 0 }
    }

    /// A walk over these from a position on.
    pub fn over_from(numbers: ProcessNumbers, at: usize) -> Walk
        requires { at ≤ length numbers.items }
        ensures { result ≡ drop at numbers.items }
    {
        Walk { numbers, at }
    }

    /// Returns the next process, and passes it.
    pub fn advance(&mut self) -> Option<Pid>
        ensures { MatchOption result ((self.old ≡ []) × (self.new ≡ [])) (λ p. self.old ≡ p.0 ∷ self.new) }
    {
        let number = *self.numbers.as_slice().get(self.at)?;
        self.at += 1;
        Some(Pid(number))
    }

    /// Returns the next process that is marked. The walk passes it and those before it.
    pub(crate) fn next_marked(&mut self, processes: &ProcessList) -> Option<Pid>
        ensures next { option_map (λ (p : At). p.0) result ≡ slice_get (from_marked processes.now self.old) 0 }
        ensures rest { self.new ≡ drop 1 (from_marked processes.now self.old) }
    {
        while let Some(pid) = self.advance() {
            if processes.is_marked(pid) {
                return Some(pid);
            }
        }
        None
    }

    /// Whether one of the kernel's processes is next.
    pub(crate) fn comes_to_kernel(&self) -> bool
        ensures { result ≡ is_kernel_next self.now }
    {
        self.at < self.numbers.len() && self.numbers.as_slice()[self.at] < FIRST_APPLICATION
    }

    /// Passes the kernel's processes that are next.
    pub(crate) fn pass_kernel_processes(&mut self)
        ensures { self.new ≡ from_application self.old }
    {
        while self.comes_to_kernel() {
            let _ = self.advance();
        }
    }

    #[tactic(auto, using(crate::proofs::LonePoll::is_empty_drop))]
    /// Whether no process is left.
    pub fn is_over(&self) -> bool
        ensures { result ≡ is_empty self.now }
    {
        self.at == self.numbers.len()
    }
}
