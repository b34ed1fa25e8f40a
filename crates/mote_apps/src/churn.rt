//! An application that goes through all kinds of memory.

ghost use Rattle.std.specs.Prelude.{◌≡◌};
ghost use Rattle.mote_apps.specs.Churn.{churn_says, call_at, next_made};

use mote_types::app::App;
use mote_types::call::Call;
use mote_types::chunk_of;
use mote_types::event::{Event, INIT, Stimulus};

/// How many calls it makes.
const CALLS: u8 = 18;

/// Makes 18 calls on managed memory, heap memory, a pool and a list when it is started, one after another, whatever the
/// replies are, and waits then (this project's profile).
#[derive(Drop)]
pub struct Churn {
    /// How many of the calls were made.
    pub made: u8,
}

/// The call with this number, counted from 0. After the last one it waits.
fn make_call(number: u8) -> Call
    ensures { result ≡ call_at number }
{
    match number {
        0 => Call::MmemAlloc(0, 10),
        1 => Call::MmemAlloc(1, 20),
        2 => Call::MmemAlloc(2, 30),
        3 => Call::MmemWrite(2, 0, chunk_of(b"churn")),
        4 => Call::MmemFree(0),
        5 => Call::MmemRead(2, 0, 5),
        6 => Call::MmemAvail,
        7 => Call::HeapAlloc(0, 20),
        8 => Call::HeapAlloc(1, 20),
        9 => Call::HeapFree(0),
        10 => Call::HeapAlloc(2, 4),
        11 => Call::HeapStats,
        12 | 13 => Call::MembAlloc(0),
        14 => Call::ListAdd(0, 1),
        15 => Call::ListPush(0, 0),
        16 => Call::ListChop(0),
        17 => Call::MembNumFree(0),
        _ => Call::Wait,
    }
}

impl Churn {
    /// Its calls are spent until it is started.
    pub fn new() -> Self
        ensures { result ≡ record { made = 18 } }
    {
        Churn { made: CALLS }
    }

    /// Makes the next call.
    fn next_call(&mut self) -> Call
        ensures call { result ≡ call_at self.old.made }
        ensures state { self.new ≡ record { made = next_made self.old.made } }
    {
        let call = make_call(self.made);
        if self.made < CALLS {
            self.made += 1;
        }
        call
    }
}

impl App for Churn {
    ghost says = { churn_says };

    fn turn(&mut self, stimulus: &Stimulus) -> Call {
        match stimulus {
            Stimulus::Event(Event { code: INIT, .. }) => {
                self.made = 0;
                self.next_call()
            }
            Stimulus::Answer(_) => self.next_call(),
            _ => Call::Wait,
        }
    }
}
