//! The kernel's replies to calls.

ghost use Rattle.std.specs.Prelude.{◌≡◌, OnOk, IfErr};
ghost use Rattle.mote_types.specs.declared.reply.Reply.{Reply as Answer};

use crate::refusal::Refusal;
use arrayvec::ArrayVec;

/// The bytes of one read, write or print: at most 64.
pub type Chunk = ArrayVec<u8, 64>;

/// The state of the whole heap, all in bytes but `chunks`.
///
/// `allocated + overhead + available` is the size of the heap region. Source: `heapmem_stats_t` of heapmem.h; how each
/// is counted is this project's profile.
#[derive(Clone, Copy, Drop)]
pub struct HeapStats {
    /// What the live blocks have room for.
    pub allocated: u32,
    /// The headers of the live blocks.
    pub overhead: u32,
    /// All gaps.
    pub available: u32,
    /// Where the highest live block ends, 0 where there is none.
    pub footprint: u32,
    /// The number of live blocks.
    pub chunks: u32,
}

/// The reply to a call, which is the stimulus of the caller's next turn.
#[derive(Drop)]
pub enum Reply {
    /// The call was executed.
    Done,
    /// The call was refused, and changed nothing.
    Refused(Refusal),
    /// A number of up to 32 bits.
    Num(u32),
    /// A number of up to 64 bits: the clock.
    Wide(u64),
    /// Yes or no.
    Flag(bool),
    /// The bytes of a read.
    Bytes(Chunk),
    /// The state of the heap.
    Stats(HeapStats),
}

impl Reply {
    /// The reply to a call that returns no value: `Done`, or why it was refused.
    pub fn done_or_refused(outcome: Result<(), Refusal>) -> Reply
        ensures done { OnOk outcome (result ≡ Answer.Done) }
        ensures refused { IfErr outcome (λ refusal. result ≡ Answer.Refused refusal) }
    {
        match outcome {
            Ok(()) => Reply::Done,
            Err(refusal) => Reply::Refused(refusal),
        }
    }
}
