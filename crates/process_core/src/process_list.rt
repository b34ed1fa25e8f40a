//! The process list, the head first.
ghost use Rattle.std.specs.Prelude.{◌≡◌, ◌<◌, ◌≤◌, [], ◌∷◌, ◌++◌, ℕ, List, length, false, eqb};
ghost use Rattle.std.specs.List.{IsDistinct};
ghost use Rattle.process_core.specs.Code.LonePoll.{is_only_marked};
ghost use Rattle.process_core.specs.Processes.{state_of, is_marked, is_any_marked, with_state, with_mark, without, numbers, at_first};
ghost use Rattle.process_core.specs.Code.ProcessList.{others, state_at};
ghost use Rattle.process_core.specs.Code.Walks.{from_marked};
ghost use Rattle.process_core.specs.declared.state.State.{State};

use crate::marks::{Marks, PROCESSES};
use crate::process_numbers::ProcessNumbers;
use crate::state::State;
use crate::walk::Walk;
use mote_types::event::{FIRST_APPLICATION, Pid};
use std::marker::Model;

/// The processes that are there: the kernel's and the applications that were started, the latest first.
///
/// The state of a process and its mark are stored at its number, so that no list is searched.
#[derive(Drop)]
pub struct ProcessList {
    on_list: ProcessNumbers,
    /// One that is not on the list is Absent.
    states: [State; PROCESSES],
    marks: Marks,
}

impl Model for ProcessList {
    ghost use Rattle.std.specs.Prelude.{List, ℕ};
    ghost use Rattle.process_core.specs.declared.process.Process.{Process};
    ghost use Rattle.process_core.specs.Code.ProcessList.{listed, IsListed};

    ghost Value = { List Process };

    ghost view = { λ l. listed l.states l.marks l.on_list.items };

    ghost invariant = { λ l. IsListed l.states l.marks l.on_list.items };
}

fn state_in(states: &[State], number: u8) -> State
    ensures { result ≡ state_at states.now number }
{
    match states.get(number as usize) {
        Some(state) => *state,
        None => State::Absent,
    }
}

/// The numbers except this one.
fn others_in(on_list: &[u8], number: u8) -> ProcessNumbers
    requires { length on_list.now ≤ 20 }
    ensures { result.items ≡ others number on_list.now }
{
    let mut kept = ProcessNumbers::new();
    for other in on_list {
        if *other != number {
            kept.push(*other);
        }
    }
    kept
}

impl ProcessList {
    /// The kernel's processes, which all run.
    pub fn new() -> ProcessList
        ensures { result ≡ at_first }
    {
        let mut on_list = ProcessNumbers::new();
        on_list.push(3);
        on_list.push(2);
        on_list.push(1);
        on_list.push(0);
        let mut states = [State::Absent; PROCESSES];
        states[0] = State::Running;
        states[1] = State::Running;
        states[2] = State::Running;
        states[3] = State::Running;
        ProcessList {
            on_list,
            states,
            marks: Marks::new(),
        }
    }

    /// No process is on the list twice. Nothing is done.
    pub fn each_is_once(&self)
        ensures { IsDistinct eqb (numbers self.now) }
    {
        let _ = &self.on_list;
    }

    /// What the process is doing; Absent where it is not on the list.
    pub fn state_of(&self, pid: Pid) -> State
        ensures value { result ≡ state_of pid.0 self.now }
        ensures known { (state_of pid.0 self.now ≡ State.Absent → ⊥) → pid.0 < 20 }
    {
        state_in(&self.states, pid.0)
    }

    /// Whether a poll of the process is pending.
    pub fn is_marked(&self, pid: Pid) -> bool
        ensures { result ≡ is_marked pid.0 self.now }
    {
        pid.0 < 20 && self.marks.is_marked(pid.0)
    }

    /// Whether any poll is pending.
    pub fn is_any_marked(&self) -> bool
        ensures { result ≡ is_any_marked self.now }
    {
        self.marks.is_any()
    }

    /// Whether a poll of this process is pending, and of no other one.
    pub fn is_only_marked(&self, pid: Pid) -> bool
        requires { pid.0 < 20 }
        ensures { result ≡ is_only_marked pid.0 self.now }
    {
        self.marks.is_only(pid.0)
    }

    /// Changes the state of a process of the list.
    pub fn set_state(&mut self, pid: Pid, state: State)
        requires { state ≡ State.Absent → ⊥ }
        ensures { self.new ≡ with_state pid.0 state self.old }
    {
        match self.state_of(pid) {
            State::Absent => {}
            _ => self.states[pid.0 as usize] = state,
        }
    }

    /// Sets or clears the mark of a process of the list.
    pub fn set_mark(&mut self, pid: Pid, marked: bool)
        ensures { self.new ≡ with_mark pid.0 marked self.old }
    {
        match self.state_of(pid) {
            State::Absent => {}
            _ => self.marks.set(pid.0, marked),
        }
    }

    /// Puts the process at the head, running and unmarked.
    pub fn add(&mut self, pid: Pid)
        requires known { pid.0 < 20 }
        requires absent { state_of pid.0 self.old ≡ State.Absent }
        ensures { self.new ≡ record { number = pid.0; state = State.Running; marked = false } ∷ self.old }
    {
        self.on_list = ProcessNumbers::with_first(pid.0, self.on_list.as_slice());
        self.states[pid.0 as usize] = State::Running;
    }

    /// Removes the application from the list, with its mark.
    pub fn remove(&mut self, pid: Pid)
        requires { 4 ≤ pid.0 }
        ensures { self.new ≡ without pid.0 self.old }
    {
        match self.state_of(pid) {
            State::Absent => {}
            _ => {
                self.on_list = others_in(self.on_list.as_slice(), pid.0);
                self.states[pid.0 as usize] = State::Absent;
                self.marks.set(pid.0, false);
            }
        }
    }

    /// A walk over the list as it is now.
    pub fn walk(&self) -> Walk
        ensures all { result ≡ numbers self.now }
        ensures few { length result ≤ 20 }
    {
        Walk::over(self.on_list.copied())
    }

    /// A walk over the list as it is now, for a poll round. Where no application is marked it begins at the kernel's
    /// processes: nothing is done before it reaches one of them.
    pub fn walk_to_poll(&self) -> Walk
        ensures rest { (passed : List ℕ) × (numbers self.now ≡ passed ++ result) × (from_marked self.now passed ≡ []) }
        ensures few { length result ≤ 20 }
    {
        let at = if self.marks.is_application_marked() {
            0
        } else {
            self.on_list.len() - usize::from(FIRST_APPLICATION)
        };
        Walk::over_from(self.on_list.copied(), at)
    }

    /// A walk over the list as it is now, without this process.
    pub fn walk_others(&self, pid: Pid) -> Walk
        ensures { result ≡ numbers (without pid.0 self.now) }
    {
        Walk::over(others_in(self.on_list.as_slice(), pid.0))
    }
}
