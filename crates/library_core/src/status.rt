//! The statuses of the calls by which a mote is asked step by step.

ghost use Rattle.std.specs.Prelude.{◌≡◌, ◌≢◌, ◌≤◌};
ghost use Rattle.library_core.specs.NetworkCalls.{fault_status};
ghost use Rattle.library_core.specs.Steps.{refusal_status};

use mote_session::refusal::SessionRefusal;
use network_steps::fault::StepsFault;

/// It was done.
pub const DONE: u32 = 0;

/// There is no such application.
pub const NO_APPLICATION: u32 = 17;

/// No mote boots with these sizes and this number of applications.
pub const BAD_SIZES: u32 = 19;

/// The line is longer than the buffer.
pub const NO_ROOM: u32 = 20;

/// Memory was refused.
pub const OUT_OF_MEMORY: u32 = 21;

/// The mote is closed.
pub const CLOSED: u32 = 22;

/// The mote is open already.
pub const IS_OPEN: u32 = 23;

/// No turn awaits a call.
pub const NO_TURN: u32 = 25;

/// There is no such call.
pub const NO_CALL: u32 = 27;

/// There is no line yet.
pub const NO_LINE: u32 = 30;

/// No timer is set.
pub const NO_TIMER: u32 = 33;

/// The last entry reports no frame as sent.
pub const NO_FRAME: u32 = 35;

/// The status of a refusal.
pub fn refusal_status(refusal: SessionRefusal) -> u32
    ensures status { result ≡ refusal_status refusal }
    ensures not_done { 2 ≤ result }
    ensures room { result ≢ 20 }
    ensures open { result ≢ 22 }
{
    match refusal {
        SessionRefusal::BadLine => 2,
        SessionRefusal::Halted => 3,
        SessionRefusal::AwaitsCall => 24,
        SessionRefusal::NoTurn => NO_TURN,
        SessionRefusal::NotAtRest => 26,
        SessionRefusal::NoInput => 28,
        SessionRefusal::TooManyInputs => 29,
        SessionRefusal::NoLine => 30,
    }
}

/// The status that says why a network did nothing.
pub fn fault_status(fault: StepsFault) -> u32
    ensures status { result ≡ fault_status fault }
    ensures not_done { 2 ≤ result }
    ensures open { result ≢ 22 }
{
    match fault {
        StepsFault::Refused(refusal) => refusal_status(refusal),
        StepsFault::NoRoom => NO_ROOM,
        StepsFault::Memory => OUT_OF_MEMORY,
        StepsFault::BadLink => 31,
        StepsFault::NoMote => 32,
        StepsFault::IsStarted => 34,
    }
}
