//! What a row is for.

ghost use Rattle.std.specs.Prelude.{◌≡◌};
ghost use Rattle.call_lists.specs.Triggers.{is_asked, is_carried, is_for, is_for_reply, is_for_callback, is_for_event, is_refusal};

use mote_types::event::{Event, Payload, Stimulus};
use mote_types::reply::Reply;

/// The stimuli that a row is for.
#[derive(Clone, Copy, Debug, PartialEq, Eq, Drop)]
pub enum Trigger {
    /// Each event, and each expiry of a callback timer.
    Any,
    /// An event of this code: each, or each that carries this number.
    Event(u8, Option<u32>),
    /// The expiry of each callback timer, or of this one.
    Callback(Option<u8>),
    /// Each refusal of a call, or each of this number.
    Refused(Option<u8>),
}

/// Whether a number is the one that is asked for, where one is.
fn is_asked(asked: Option<u8>, number: u8) -> bool
    ensures { result ≡ is_asked asked number }
{
    match asked {
        Some(asked) => number == asked,
        None => true,
    }
}

/// Whether so is the number that an event carries.
fn is_carried(asked: Option<u32>, payload: &Payload) -> bool
    ensures { result ≡ is_carried asked payload.now }
{
    match (asked, payload) {
        (None, _) => true,
        (Some(asked), Payload::Num(number)) => *number == asked,
        _ => false,
    }
}

impl Trigger {
    fn is_for_event(self, event: &Event) -> bool
        ensures { result ≡ is_for_event self event.now }
    {
        match self {
            Trigger::Any => true,
            Trigger::Event(code, number) => event.code == code
                && is_carried(number, &event.payload),
            Trigger::Callback(_) | Trigger::Refused(_) => false,
        }
    }

    fn is_for_callback(self, timer: u8) -> bool
        ensures { result ≡ is_for_callback self timer }
    {
        match self {
            Trigger::Any => true,
            Trigger::Callback(asked) => is_asked(asked, timer),
            Trigger::Event(..) | Trigger::Refused(_) => false,
        }
    }

    fn is_for_reply(self, reply: &Reply) -> bool
        ensures { result ≡ is_for_reply self reply.now }
    {
        match (self, reply) {
            (Trigger::Refused(number), Reply::Refused(refusal)) => is_asked(
                number,
                refusal.number(),
            ),
            _ => false,
        }
    }

    /// Whether a row with this trigger is for a stimulus.
    pub fn is_for(self, stimulus: &Stimulus) -> bool
        ensures { result ≡ is_for self stimulus.now }
    {
        match stimulus {
            Stimulus::Event(event) => self.is_for_event(event),
            Stimulus::Callback(timer) => self.is_for_callback(*timer),
            Stimulus::Answer(reply) => self.is_for_reply(reply),
        }
    }

    /// Whether it is for refusals.
    pub fn is_refusal(self) -> bool
        ensures { result ≡ is_refusal self }
    {
        matches!(self, Trigger::Refused(_))
    }
}
