//! An application that broadcasts a count.

ghost use Rattle.std.specs.Prelude.{◌≡◌, None};
ghost use Rattle.mote_types.specs.declared.call.Call as call_of;
ghost use Rattle.mote_apps.specs.Ping.{ping_says, number_text, number_given, asked_answer, asked_next, ring_answer, ring_next};
ghost use Rattle.mote_apps.specs.declared.ping.Stage.{Stage};

use mote_types::app::App;
use mote_types::call::Call;
use mote_types::event::{Event, INIT, Payload, Stimulus, TIMER};
use mote_types::reply::{Chunk, Reply};
use mote_types::{push_bytes, push_decimal};

/// The ticks from one broadcast to the next.
const INTERVAL: u32 = 5;

/// Which reply is awaited.
#[derive(Clone, Copy, Drop)]
pub enum Stage {
    /// None.
    Idle,
    /// An event number.
    Asked,
    /// That of a broadcast.
    Sent,
}

/// Allocates an event number at its start. Each time its event timer 0 expires, it broadcasts a count under that number, and
/// resets the timer. It prints each count that it receives under that number (this project's profile).
#[derive(Drop)]
pub struct Ping {
    /// The event number that it has drawn.
    pub number: Option<u8>,
    /// The count that is broadcast next. It stays at its largest value.
    pub count: u32,
    pub stage: Stage,
}

/// Writes the call that prints the number in decimal and a line end into the buffer, with the text at once.
// A function of its own, since it has room for bytes, which is cleared at its entry.
#[inline(never)]
fn put_count(call: &mut Call, n: u32)
    ensures { call.new ≡ call_of.Call.Print (record { items = number_text n }) }
{
    *call = Call::Print(Chunk::new());
    match call {
        Call::Print(text) => {
            push_decimal(text, n);
            push_bytes(text, b"\n");
        }
        _ => unreachable!(),
    }
}

/// The event number that a reply gives.
fn given_number(reply: &Reply) -> Option<u8>
    ensures { result ≡ number_given reply.now }
{
    match reply {
        Reply::Num(n) if *n <= 255 => Some(*n as u8),
        _ => None,
    }
}

impl Ping {
    /// It has no number, and counts from 0.
    pub fn new() -> Self
        ensures { result ≡ record { number = None; count = 0; stage = Stage.Idle } }
    {
        Ping {
            number: None,
            count: 0,
            stage: Stage::Idle,
        }
    }

    /// The reply to `AllocEvent` has come.
    fn begin(&mut self, reply: &Reply, call: &mut Call)
        ensures call { call.new ≡ asked_answer (number_given reply.now) }
        ensures state { self.new ≡ asked_next (number_given reply.now) self.old }
    {
        self.stage = Stage::Idle;
        match given_number(reply) {
            Some(number) => {
                self.number = Some(number);
                *call = Call::TimerSet(0, INTERVAL);
            }
            None => *call = Call::Exit,
        }
    }

    /// The timer has run out.
    fn ring(&mut self, call: &mut Call)
        ensures call { call.new ≡ ring_answer self.old.number self.old.count }
        ensures state { self.new ≡ ring_next self.old.number self.old }
    {
        match self.number {
            Some(number) => {
                let count = self.count;
                self.count = count.saturating_add(1);
                self.stage = Stage::Sent;
                *call = Call::Broadcast(number, Payload::Num(count));
            }
            None => *call = Call::Wait,
        }
    }
}

impl App for Ping {
    ghost says = { ping_says };

    fn turn(&mut self, stimulus: &Stimulus) -> Call {
        let mut call = Call::Wait;
        self.turn_into(stimulus, &mut call);
        call
    }

    #[inline(never)]
    fn turn_into(&mut self, stimulus: &Stimulus, call: &mut Call) {
        match stimulus {
            Stimulus::Event(Event { code: INIT, .. }) => {
                self.count = 0;
                self.stage = Stage::Asked;
                *call = Call::AllocEvent;
            }
            Stimulus::Event(Event { code: TIMER, .. }) => self.ring(call),
            Stimulus::Event(
                Event {
                    code,
                    payload: Payload::Num(n),
                },
            ) if self.number == Some(*code) => put_count(call, *n),
            Stimulus::Answer(reply) => match self.stage {
                Stage::Idle => *call = Call::Wait,
                Stage::Asked => self.begin(reply, call),
                Stage::Sent => {
                    self.stage = Stage::Idle;
                    *call = Call::TimerReset(0);
                }
            },
            // Of sixteen of these applications each hears the counts of all: a buffer that still has a wait isn't written again.
            _ => {
                if !matches!(call, Call::Wait) {
                    *call = Call::Wait;
                }
            }
        }
    }
}
