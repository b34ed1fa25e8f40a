//! Why a call is refused.

ghost use Rattle.std.specs.Prelude.{◌≡◌};
ghost use Rattle.mote_types.specs.Codes as codes;

/// Why a call is refused, or a frame is lost. The numbers are those that a transcript shows (this project's profile).
#[derive(Clone, Copy, Debug, PartialEq, Eq, Drop)]
pub enum Refusal {
    /// The event queue has no free slot, or 8 frames are held.
    Full,
    /// The process does not run.
    NotRunning,
    /// It is so already.
    Already,
    /// Another activation is in the way, or another process has it.
    Busy,
    /// The event code is reserved for the kernel.
    Reserved,
    /// All event numbers were drawn.
    NoEvent,
    /// No process, timer, handle, block, pool or list has that name.
    BadName,
    /// The handle or block is live already.
    InUse,
    /// The handle or block is not live.
    NotLive,
    /// There is no element.
    Empty,
    /// The length, or the range, is none that is allowed here.
    Range,
    /// Memory has no room for the bytes.
    NoRoom,
    /// The pool has no unused block.
    NoBlock,
    /// The block is in a list.
    Linked,
    /// The block is not in that list.
    NotLinked,
    /// No frame is held.
    NoPacket,
    /// The caller is not the receiver.
    NotReceiver,
    /// The caller's quota of managed memory has no room for the bytes.
    OverQuota,
}

impl Refusal {
    /// The number that a transcript shows, from 1 to 18.
    pub fn number(self) -> u8
        ensures { result ≡ codes.refusal_number self }
    {
        match self {
            Refusal::Full => 1,
            Refusal::NotRunning => 2,
            Refusal::Already => 3,
            Refusal::Busy => 4,
            Refusal::Reserved => 5,
            Refusal::NoEvent => 6,
            Refusal::BadName => 7,
            Refusal::InUse => 8,
            Refusal::NotLive => 9,
            Refusal::Empty => 10,
            Refusal::Range => 11,
            Refusal::NoRoom => 12,
            Refusal::NoBlock => 13,
            Refusal::Linked => 14,
            Refusal::NotLinked => 15,
            Refusal::NoPacket => 16,
            Refusal::NotReceiver => 17,
            Refusal::OverQuota => 18,
        }
    }
}
