//! An application that beats.

ghost use Rattle.std.specs.Prelude.{◌≡◌, false};
ghost use Rattle.template_app.specs.Beat.{beat_says};

use mote_kit::chunk_of;
use mote_types::app::App;
use mote_types::call::Call;
use mote_types::event::{Event, INIT, Stimulus, TIMER};

/// The ticks between two beats.
const INTERVAL: u32 = 10;

/// Prints `beat` each time that its event timer 0 has run out, and resets the timer then.
#[derive(Drop)]
pub struct Beat {
    /// Whether the reply to its print is awaited.
    printed: bool,
}

impl Beat {
    pub fn new() -> Self
        ensures { result ≡ record { printed = false } }
    {
        Beat { printed: false }
    }
}

impl App for Beat {
    ghost says = { beat_says };

    fn turn(&mut self, stimulus: &Stimulus) -> Call {
        match stimulus {
            Stimulus::Event(Event { code: INIT, .. }) => {
                self.printed = false;
                Call::TimerSet(0, INTERVAL)
            }
            Stimulus::Event(Event { code: TIMER, .. }) => {
                self.printed = true;
                Call::Print(chunk_of(b"beat\n"))
            }
            Stimulus::Answer(_) if self.printed => {
                self.printed = false;
                Call::TimerReset(0)
            }
            _ => Call::Wait,
        }
    }
}
