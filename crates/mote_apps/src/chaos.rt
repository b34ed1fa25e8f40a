//! An application that makes calls at random, for tests only.

ghost use Rattle.std.specs.Prelude.{◌≡◌, ◌<◌, ◌^◌};
ghost use Rattle.mote_apps.specs.Chaos.{chaos_says, next_number, call_of, nth_call};

use mote_types::app::App;
use mote_types::call::Call;
use mote_types::event::{FIRST_APPLICATION, Payload, Stimulus};

/// The numbers of the generator are below this.
const MODULUS: u64 = 0x8000_0000;

/// Makes at each stimulus, whatever it is, a call that a generator of numbers chooses, on one of eight processes, timers,
/// handles, blocks or pools: what a hostile application may do (this project's profile). Only tests run it.
#[derive(Drop)]
pub struct Chaos {
    /// The number that was drawn last.
    pub x: u32,
}

/// The number after `x`.
fn next_number(x: u32) -> u32
    ensures number { result ≡ next_number x }
    ensures within { result < 2 ^ 31 }
{
    ((x as u64 * 1_103_515_245 + 12_345) % MODULUS) as u32
}

/// The chosen one of the sixteen calls.
fn nth_call(choice: u32, name: u8, size: u32) -> Call
    requires name { name < 8 }
    requires size { size < 256 }
    ensures { result ≡ nth_call choice name size }
{
    let pid = FIRST_APPLICATION + name;
    match choice {
        1 => Call::PostSynch(pid, 140, Payload::Empty),
        2 => Call::Kill(pid),
        3 => Call::Start(pid),
        4 => Call::Post(pid, 141, Payload::Empty),
        5 => Call::Poll(pid),
        6 => Call::TimerSet(name, size),
        7 => Call::CallbackSet(name, size),
        8 => Call::MmemAlloc(name, size),
        9 => Call::MmemFree(name),
        10 => Call::MmemRead(name, 0, size as u8),
        11 => Call::HeapAlloc(name, size),
        12 => Call::HeapRealloc(name, size),
        13 => Call::HeapFree(name),
        14 => Call::MembAlloc(name),
        15 => Call::Exit,
        _ => Call::Wait,
    }
}

/// The call of a number: four of its bits choose it, three the name, and the highest eight the size.
#[tactic(auto, unfolding(crate::specs::Chaos::call_of))]
fn make_call(x: u32) -> Call
    requires { x < 2 ^ 31 }
    ensures { result ≡ call_of x }
{
    nth_call(x / 0x1_0000 % 16, (x / 0x10_0000 % 8) as u8, x / 0x80_0000)
}

impl App for Chaos {
    ghost says = { chaos_says };

    fn turn(&mut self, _stimulus: &Stimulus) -> Call {
        self.x = next_number(self.x);
        make_call(self.x)
    }
}
