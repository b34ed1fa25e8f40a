//! A row: what it is for, and its calls.

ghost use Rattle.std.specs.Prelude.{◌≡◌};
ghost use Rattle.call_lists.specs.RowFilling.{filled};
ghost use Rattle.call_lists.specs.Rows.{Rule, next_call, one_further, begun_anew};

use crate::rows::filling::filled;
use crate::rows::trigger::Trigger;
use mote_types::call::Call;
use mote_types::event::Payload;
use std::marker::Model;

/// A call of a row.
#[derive(Drop)]
pub struct Step {
    pub call: Call,
    /// Whether the last received value replaces its last word.
    pub uses_received: bool,
}

/// The calls for a stimulus, and the number of those made since the row began.
#[derive(Drop)]
pub struct Row {
    trigger: Trigger,
    steps: Vec<Step>,
    place: usize,
    repeats: bool,
}

impl Model for Row {
    ghost Value = { Rule };

    ghost view = { λ row. record { trigger = row.trigger; steps = row.steps.items; place = row.place; repeats = row.repeats } };
}

impl Row {
    /// A row that has made none of its calls.
    pub fn new(trigger: Trigger, steps: Vec<Step>, repeats: bool) -> Self
        ensures { result ≡ record { trigger = trigger; steps = steps.items; place = 0; repeats = repeats } }
    {
        Row {
            trigger,
            steps,
            place: 0,
            repeats,
        }
    }

    /// What it is for.
    pub fn trigger(&self) -> Trigger
        ensures { result ≡ self.now.trigger }
    {
        self.trigger
    }

    /// The next call, with the last received value; after the last one `Wait`, where the row begins anew, if it does.
    pub(crate) fn make_call(&mut self, received: &Payload) -> Call
        ensures call { result ≡ next_call received.now (Some self.old) }
        ensures row { self.new ≡ one_further self.old }
    {
        if self.place < self.steps.len() {
            let step = &self.steps[self.place];
            let call = filled(&step.call, step.uses_received, received);
            self.place += 1;
            return call;
        }
        if self.repeats {
            self.place = 0;
        }
        Call::Wait
    }

    /// Lets none of its calls count as made.
    pub(crate) fn begin_anew(&mut self)
        ensures { self.new ≡ begun_anew self.old }
    {
        self.place = 0;
    }
}
