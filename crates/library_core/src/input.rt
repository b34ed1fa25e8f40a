//! An input as C passes it.

ghost use Rattle.std.specs.Prelude.{◌≡◌};
ghost use Rattle.library_core.specs.Inputs.{bytes_if_few, input_said};

use arrayvec::ArrayVec;
use mote_types::entry::Input;

/// The kinds of inputs.
const TICK: u32 = 0;

const SERIAL: u32 = 1;

const FRAME: u32 = 2;

/// These bytes; none of them, where the vector has no room for all.
fn if_few<const N: usize>(bytes: &[u8]) -> ArrayVec<u8, N>
    ensures { result.items ≡ bytes_if_few N bytes.now }
{
    let mut taken = ArrayVec::new();
    let _ = taken.try_extend_from_slice(bytes);
    taken
}

/// The input of this kind: `ticks` of the clock, or bytes that come in. One of no bytes, where there is no such kind, or where
/// there are too many.
pub fn input_of(kind: u32, ticks: u32, bytes: &[u8]) -> Input
    ensures { result ≡ input_said kind ticks bytes.now }
{
    match kind {
        TICK => Input::Tick(ticks),
        SERIAL => Input::Serial(if_few(bytes)),
        FRAME => Input::Frame(if_few(bytes)),
        _ => Input::Serial(ArrayVec::new()),
    }
}
