//! An application that prints what comes in on the serial line.

ghost use Rattle.std.specs.Prelude.{◌≡◌, ◌≤◌, [], length, take, drop};
ghost use Rattle.mote_types.specs.declared.call.Call.{Call};
ghost use Rattle.mote_apps.specs.Echo.{echo_says};

use crate::calls::put_print;
use mote_types::app::App;
use mote_types::call::Call;
use mote_types::event::{Event, Payload, SERIAL_LINE, Stimulus};
use mote_types::reply::Chunk;

/// The bytes of one print.
const CHUNK: usize = 64;

/// Prints each line of the serial line, without its end: by two prints, where it has more than 64 bytes (this project's
/// profile).
#[derive(Drop)]
pub struct Echo {
    /// The part of the line that is still to print.
    pub rest: Chunk,
}

impl Echo {
    /// Nothing is left to print.
    pub fn new() -> Self
        ensures { result ≡ record { rest = record { items = [] } } }
    {
        Echo { rest: Chunk::new() }
    }

    /// Keeps the rest of a line, after its first print, for the next print.
    // Few turns come to this and to `go_on`: by themselves they cost the others no room and no registers.
    #[inline(never)]
    fn keep(&mut self, rest: &[u8])
        requires { length rest.now ≤ 64 }
        ensures { self.new ≡ record { rest = record { items = rest.now } } }
    {
        self.rest.clear();
        let _ = self.rest.try_extend_from_slice(rest);
    }

    /// A line has come in.
    #[tactic(auto, using(std::proofs::lemmas::List::take_min, std::proofs::lemmas::List::drop_min))]
    fn begin(&mut self, line: &[u8], call: &mut Call)
        requires { length line.now ≤ 127 }
        ensures call { call.new ≡ Call.Print (record { items = take 64 line.now }) }
        ensures state { self.new ≡ record { rest = record { items = drop 64 line.now } } }
    {
        if line.len() <= CHUNK && self.rest.is_empty() {
            return put_print(call, line);
        }
        let (front, rest) = line.split_at(CHUNK.min(line.len()));
        self.keep(rest);
        put_print(call, front);
    }

    /// Prints the rest of the line.
    #[inline(never)]
    fn go_on(&mut self, call: &mut Call)
        ensures call { call.new ≡ Call.Print self.old.rest }
        ensures state { self.new ≡ record { rest = record { items = [] } } }
    {
        *call = Call::Print(self.rest.take());
    }
}

impl App for Echo {
    ghost says = { echo_says };

    fn turn(&mut self, stimulus: &Stimulus) -> Call {
        let mut call = Call::Wait;
        self.turn_into(stimulus, &mut call);
        call
    }

    #[inline(never)]
    fn turn_into(&mut self, stimulus: &Stimulus, call: &mut Call) {
        match stimulus {
            Stimulus::Event(
                Event {
                    code: SERIAL_LINE,
                    payload: Payload::Line(line),
                },
            ) => self.begin(line.as_slice(), call),
            Stimulus::Answer(_) if !self.rest.is_empty() => self.go_on(call),
            _ => *call = Call::Wait,
        }
    }
}
