//! An application that blinks.

ghost use Rattle.std.specs.Prelude.{◌≡◌, false};
ghost use Rattle.mote_types.specs.declared.call.Call as call_of;
ghost use Rattle.mote_apps.specs.Blink.{blink_says, light_text};

use mote_types::app::App;
use mote_types::call::Call;
use mote_types::event::{Event, INIT, Stimulus, TIMER};
use mote_types::push_bytes;
use mote_types::reply::Chunk;

/// The ticks between two changes of the light.
const INTERVAL: u32 = 10;

/// Prints `on` and `off` by turns, each time that its event timer 0 has run out, and resets the timer then (this
/// project's profile).
#[derive(Drop)]
pub struct Blink {
    /// Whether the light is on.
    pub lit: bool,
    /// Whether the light's change is being printed.
    pub printed: bool,
}

/// Writes the call that prints whether the light is on into the buffer.
// A function of its own, since it has room for bytes, which is cleared at its entry. Each text has a fixed length, so it is moved
// without a call.
#[inline(never)]
fn put_light(call: &mut Call, lit: bool)
    ensures { call.new ≡ call_of.Call.Print (record { items = light_text lit }) }
{
    *call = Call::Print(Chunk::new());
    match call {
        Call::Print(text) => {
            if lit {
                push_bytes(text, b"on\n");
            } else {
                push_bytes(text, b"off\n");
            }
        }
        _ => unreachable!(),
    }
}

impl Blink {
    /// The light is off.
    pub fn new() -> Self
        ensures { result ≡ record { lit = false; printed = false } }
    {
        Blink {
            lit: false,
            printed: false,
        }
    }
}

impl App for Blink {
    ghost says = { blink_says };

    fn turn(&mut self, stimulus: &Stimulus) -> Call {
        let mut call = Call::Wait;
        self.turn_into(stimulus, &mut call);
        call
    }

    #[inline(never)]
    fn turn_into(&mut self, stimulus: &Stimulus, call: &mut Call) {
        match stimulus {
            Stimulus::Event(Event { code: INIT, .. }) => {
                *self = Blink::new();
                *call = Call::TimerSet(0, INTERVAL);
            }
            Stimulus::Event(Event { code: TIMER, .. }) => {
                self.lit = !self.lit;
                self.printed = true;
                put_light(call, self.lit);
            }
            Stimulus::Answer(_) if self.printed => {
                self.printed = false;
                *call = Call::TimerReset(0);
            }
            _ => *call = Call::Wait,
        }
    }
}
