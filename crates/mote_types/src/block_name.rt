//! The names of blocks of managed and of heap memory.

ghost use Rattle.std.specs.Prelude.{◌≡◌, ◌<◌};
ghost use Rattle.mote_types.specs.BlockNames as names;
ghost use Rattle.mote_types.specs.Code.Conditions.{IsName};

use crate::event::Pid;

/// The name of a block: a process from 3 to 19, and one of its handles or blocks, from 0 to 15.
pub type Key = (Pid, u8);

/// The number of names.
pub const NAMES: usize = 272;

/// The number of a name, for a table of all names.
pub fn number_of(key: Key) -> usize
    requires { IsName key.0.0 key.1 }
    ensures number { result ≡ names.number_of key.0.0 key.1 }
    ensures within { result < 272 }
{
    (key.0.0 - 3) as usize * 16 + key.1 as usize
}
