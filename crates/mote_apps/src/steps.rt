//! An application that goes through a list of calls.

ghost use Rattle.std.specs.Prelude.{◌≡◌, ◌≤◌, List, drop};
ghost use Rattle.mote_apps.specs.Steps.{steps_says};
ghost use Rattle.mote_types.specs.declared.call.Call.{Call};

use mote_types::app::App;
use mote_types::call::Call;
use mote_types::event::Stimulus;
use std::marker::Model;
use std::mem;

/// Makes its calls one after another, one at each stimulus, and waits once they are spent (this project's profile).
///
/// Contracts see it as the list of the calls that are left.
#[derive(Drop)]
pub struct Steps<const N: usize> {
    calls: [Call; N],
    made: usize,
}

impl<const N: usize> Model for Steps<N> {
    ghost Value = { List Call };

    ghost view = { λ steps. drop steps.made steps.calls };

    ghost invariant = { λ steps. steps.made ≤ N };
}

impl<const N: usize> Steps<N> {
    /// All of these calls are left.
    pub fn new(calls: [Call; N]) -> Self
        ensures { result ≡ calls.entry }
    {
        Steps { calls, made: 0 }
    }
}

impl<const N: usize> App for Steps<N> {
    ghost says = { steps_says };

    fn turn(&mut self, _stimulus: &Stimulus) -> Call {
        if self.made < N {
            let call = mem::replace(&mut self.calls[self.made], Call::Wait);
            self.made += 1;
            call
        } else {
            Call::Wait
        }
    }
}
