//! Processes, events, and the stimuli that a process receives.

ghost use Rattle.std.specs.Prelude.{◌≡◌};
ghost use Rattle.mote_types.specs.Codes as codes;

use crate::reply::Reply;
use arrayvec::ArrayVec;

/// The number of a process: 0 (etimer), 1 (ctimer), 2 (serial line) and 3 (packet) are the kernel's, the applications
/// are 4, 5, .. up to 19.
#[derive(Clone, Copy, Debug, PartialEq, Eq, Drop)]
pub struct Pid(pub u8);

/// The first application's number.
pub const FIRST_APPLICATION: u8 = 4;

/// The largest number of applications of a mote.
pub const MOST_APPLICATIONS: u8 = 16;

// The kernel's processes.

/// It posts the timers that have run out (`etimer_process`).
pub const ETIMER: Pid = Pid(0);

/// It lets the expiries of callback timers count (`ctimer_process`).
pub const CTIMER: Pid = Pid(1);

/// Makes lines of the bytes that arrive on the serial line (`serial_line_process`).
pub const SERIAL_PROCESS: Pid = Pid(2);

/// Notifies the receiver of the frames that arrived (this project's profile).
pub const PACKET_PROCESS: Pid = Pid(3);

/// What an event carries: a value, never a pointer (this project's profile).
#[derive(Drop)]
pub enum Payload {
    Empty,
    Num(u32),
    /// A line of at most 127 bytes.
    Line(ArrayVec<u8, 127>),
}

/// An event: its code and what it carries.
#[derive(Drop)]
pub struct Event {
    pub code: u8,
    pub payload: Payload,
}

/// What a process receives at the start of a turn.
#[derive(Drop)]
pub enum Stimulus {
    Event(Event),
    /// The reply to the process's last call.
    Answer(Reply),
    /// One of its callback timers has run out.
    Callback(u8),
}

/// The origin of a stimulus.
#[derive(Clone, Copy, Drop)]
pub enum Origin {
    /// The event queue.
    Event,
    /// A synchronous post, or the kernel's INIT, EXIT and EXITED.
    Synch,
    /// A poll round.
    Poll,
    /// A callback timer.
    Callback,
    /// The process's own call.
    Answer,
}

// The event numbers of process.h (PROCESS_EVENT_NONE and the following). SERIAL_LINE, PACKET and FIRST_FREE are this
// project's profile.

pub const NONE: u8 = 128;

pub const INIT: u8 = 129;

pub const POLL: u8 = 130;

pub const EXIT: u8 = 131;

pub const SERVICE_REMOVED: u8 = 132;

pub const CONTINUE: u8 = 133;

pub const MSG: u8 = 134;

pub const EXITED: u8 = 135;

pub const TIMER: u8 = 136;

pub const COM: u8 = 137;

pub const MAX: u8 = 138;

/// A line from the serial line. It has the number of `MAX`.
pub const SERIAL_LINE: u8 = 138;

/// A frame for the receiver.
pub const PACKET: u8 = 139;

/// The first number that `AllocEvent` returns.
pub const FIRST_FREE: u8 = 140;

/// The same bytes once more, without taking memory.
fn copied_line<const N: usize>(line: &ArrayVec<u8, N>) -> ArrayVec<u8, N>
    ensures { result ≡ line.now }
{
    let mut copy = ArrayVec::new();
    let _ = copy.try_extend_from_slice(line.as_slice());
    copy
}

impl Payload {
    /// The same payload once more, without taking memory.
    pub fn copied(&self) -> Payload
        ensures { result ≡ self.now }
    {
        match self {
            Payload::Empty => Payload::Empty,
            Payload::Num(n) => Payload::Num(*n),
            Payload::Line(line) => Payload::Line(copied_line(line)),
        }
    }
}

impl Event {
    /// The same event once more, without taking memory.
    pub fn copied(&self) -> Event
        ensures { result ≡ self.now }
    {
        Event {
            code: self.code,
            payload: self.payload.copied(),
        }
    }
}

/// Whether an event code is reserved for the kernel: no application may post it.
pub fn is_reserved(code: u8) -> bool
    ensures { result ≡ codes.is_reserved code }
{
    matches!(
        code,
        NONE | INIT | POLL | EXIT | SERVICE_REMOVED | EXITED | TIMER | SERIAL_LINE | PACKET
    )
}
