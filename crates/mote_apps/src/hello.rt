//! An application that greets once.

ghost use Rattle.mote_apps.specs.Hello.{hello_says};

use mote_types::app::App;
use mote_types::call::Call;
use mote_types::chunk_of;
use mote_types::event::{Event, INIT, Stimulus};

/// Prints `hi` and a line end when it is started, and waits otherwise (this project's profile).
#[derive(Drop)]
pub struct Hello;

impl App for Hello {
    ghost says = { λ _. hello_says };

    fn turn(&mut self, stimulus: &Stimulus) -> Call {
        match stimulus {
            Stimulus::Event(Event { code: INIT, .. }) => Call::Print(chunk_of(b"hi\n")),
            _ => Call::Wait,
        }
    }
}
