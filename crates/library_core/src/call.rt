//! A call as C passes it.

ghost use Rattle.std.specs.Prelude.{◌≡◌, ◌<◌, ◌≤◌, if◌then◌else◌, nat_le, take, Some, None, IfSome, IfNone};
ghost use Rattle.library_core.specs.Calls.{byte_at, call_said, chunk_of, number_at, payload_of};

use crate::kind;
use arrayvec::ArrayVec;
use mote_session::call_source::CallSource;
use mote_types::call::Call;
use mote_types::event::Payload;
use mote_types::reply::Chunk;

/// A call: its kind, its numbers in the order in which a transcript shows them, and its bytes. What its kind has no use for is not
/// looked at.
#[repr(C)]
#[derive(Drop)]
pub struct PlainCall {
    /// 1, 2, .. in the order of `Call`.
    pub kind: u32,
    pub numbers: [u32; 4],
    /// Of an event: 0 it carries nothing, 1 a number, 2 a line of bytes.
    pub payload: u32,
    /// The number that an event carries.
    pub number: u32,
    /// How many bytes there are: of prints and writes at most 64, of a line at most 127.
    pub length: u32,
    pub bytes: [u8; 128],
}

/// The first `len` bytes, if the vector has room for them.
pub(crate) fn front<const N: usize>(bytes: &[u8; 128], len: u32) -> Option<ArrayVec<u8, N>>
    requires { N ≤ 128 }
    ensures { result ≡ (if nat_le len N then Some (record { items = take len bytes.now }) else None) }
{
    let len = len as usize;
    if len > N {
        return None;
    }
    let mut front = ArrayVec::new();
    let _ = front.try_extend_from_slice(&bytes[..len]);
    Some(front)
}

impl PlainCall {
    /// A name, or how many bytes are read: a number that fits in a byte.
    fn byte(&self, index: usize) -> Option<u8>
        requires { index < 4 }
        ensures { result ≡ byte_at index self.now }
    {
        u8::try_from(self.numbers[index]).ok()
    }

    /// A length, an interval, or an offset in a block.
    fn size(&self, index: usize) -> u32
        requires { index < 4 }
        ensures { result ≡ number_at index self.now }
    {
        self.numbers[index]
    }

    /// The bytes of a print or of a write.
    fn chunk(&self) -> Option<Chunk>
        ensures { result ≡ chunk_of self.now }
    {
        front(&self.bytes, self.length)
    }

    /// What an event carries.
    fn carried(&self) -> Option<Payload>
        ensures { result ≡ payload_of self.now }
    {
        match self.payload {
            0 => Some(Payload::Empty),
            1 => Some(Payload::Num(self.number)),
            2 => Some(Payload::Line(front(&self.bytes, self.length)?)),
            _ => None,
        }
    }

    /// A call about processes and events.
    fn process_call(&self, call: &mut Call) -> Option<()>
        requires { (1 ≤ self.now.kind) × (self.now.kind ≤ 8) }
        ensures said { IfSome result (λ _. call_said self.now ≡ Some call.new) }
        ensures none { IfNone result (call_said self.now ≡ None) }
    {
        match self.kind {
            kind::POST => *call = Call::Post(self.byte(0)?, self.byte(1)?, self.carried()?),
            kind::BROADCAST => *call = Call::Broadcast(self.byte(0)?, self.carried()?),
            kind::POST_SYNCH => *call = Call::PostSynch(
                self.byte(0)?,
                self.byte(1)?,
                self.carried()?,
            ),
            kind::POLL => *call = Call::Poll(self.byte(0)?),
            kind::START => *call = Call::Start(self.byte(0)?),
            kind::KILL => *call = Call::Kill(self.byte(0)?),
            kind::IS_RUNNING => *call = Call::IsRunning(self.byte(0)?),
            kind::ALLOC_EVENT => *call = Call::AllocEvent,
            _ => return None,
        }
        Some(())
    }

    /// A call about timers and the clock, or one that ends a turn with no service.
    fn timer_call(&self, call: &mut Call) -> Option<()>
        requires { (9 ≤ self.now.kind) × (self.now.kind ≤ 19) }
        ensures said { IfSome result (λ _. call_said self.now ≡ Some call.new) }
        ensures none { IfNone result (call_said self.now ≡ None) }
    {
        match self.kind {
            kind::TIMER_SET => *call = Call::TimerSet(self.byte(0)?, self.size(1)),
            kind::TIMER_STOP => *call = Call::TimerStop(self.byte(0)?),
            kind::TIMER_RESET => *call = Call::TimerReset(self.byte(0)?),
            kind::TIMER_RESTART => *call = Call::TimerRestart(self.byte(0)?),
            kind::TIMER_EXPIRED => *call = Call::TimerExpired(self.byte(0)?),
            kind::CALLBACK_SET => *call = Call::CallbackSet(self.byte(0)?, self.size(1)),
            kind::CALLBACK_STOP => *call = Call::CallbackStop(self.byte(0)?),
            kind::CLOCK => *call = Call::Clock,
            kind::PRINT => *call = Call::Print(self.chunk()?),
            kind::WAIT => *call = Call::Wait,
            kind::EXIT => *call = Call::Exit,
            _ => return None,
        }
        Some(())
    }

    /// A call about managed memory.
    fn mmem_call(&self, call: &mut Call) -> Option<()>
        requires { (20 ≤ self.now.kind) × (self.now.kind ≤ 25) }
        ensures said { IfSome result (λ _. call_said self.now ≡ Some call.new) }
        ensures none { IfNone result (call_said self.now ≡ None) }
    {
        match self.kind {
            kind::MMEM_ALLOC => *call = Call::MmemAlloc(self.byte(0)?, self.size(1)),
            kind::MMEM_FREE => *call = Call::MmemFree(self.byte(0)?),
            kind::MMEM_WRITE => *call = Call::MmemWrite(self.byte(0)?, self.size(1), self.chunk()?),
            kind::MMEM_READ => *call = Call::MmemRead(self.byte(0)?, self.size(1), self.byte(2)?),
            kind::MMEM_COPY => *call = Call::MmemCopy(self.byte(0)?, self.byte(1)?),
            kind::MMEM_AVAIL => *call = Call::MmemAvail,
            _ => return None,
        }
        Some(())
    }

    /// A call about heap memory.
    fn heap_call(&self, call: &mut Call) -> Option<()>
        requires { (26 ≤ self.now.kind) × (self.now.kind ≤ 31) }
        ensures said { IfSome result (λ _. call_said self.now ≡ Some call.new) }
        ensures none { IfNone result (call_said self.now ≡ None) }
    {
        match self.kind {
            kind::HEAP_ALLOC => *call = Call::HeapAlloc(self.byte(0)?, self.size(1)),
            kind::HEAP_REALLOC => *call = Call::HeapRealloc(self.byte(0)?, self.size(1)),
            kind::HEAP_FREE => *call = Call::HeapFree(self.byte(0)?),
            kind::HEAP_WRITE => *call = Call::HeapWrite(self.byte(0)?, self.size(1), self.chunk()?),
            kind::HEAP_READ => *call = Call::HeapRead(self.byte(0)?, self.size(1), self.byte(2)?),
            kind::HEAP_STATS => *call = Call::HeapStats,
            _ => return None,
        }
        Some(())
    }

    /// A call about pools.
    fn memb_call(&self, call: &mut Call) -> Option<()>
        requires { (32 ≤ self.now.kind) × (self.now.kind ≤ 36) }
        ensures said { IfSome result (λ _. call_said self.now ≡ Some call.new) }
        ensures none { IfNone result (call_said self.now ≡ None) }
    {
        match self.kind {
            kind::MEMB_ALLOC => *call = Call::MembAlloc(self.byte(0)?),
            kind::MEMB_FREE => *call = Call::MembFree(self.byte(0)?, self.byte(1)?),
            kind::MEMB_WRITE => *call = Call::MembWrite(
                self.byte(0)?,
                self.byte(1)?,
                self.size(2),
                self.chunk()?,
            ),
            kind::MEMB_READ => *call = Call::MembRead(
                self.byte(0)?,
                self.byte(1)?,
                self.size(2),
                self.byte(3)?,
            ),
            kind::MEMB_NUM_FREE => *call = Call::MembNumFree(self.byte(0)?),
            _ => return None,
        }
        Some(())
    }

    /// A call about lists.
    fn list_call(&self, call: &mut Call) -> Option<()>
        requires { (37 ≤ self.now.kind) × (self.now.kind ≤ 45) }
        ensures said { IfSome result (λ _. call_said self.now ≡ Some call.new) }
        ensures none { IfNone result (call_said self.now ≡ None) }
    {
        match self.kind {
            kind::LIST_ADD => *call = Call::ListAdd(self.byte(0)?, self.byte(1)?),
            kind::LIST_PUSH => *call = Call::ListPush(self.byte(0)?, self.byte(1)?),
            kind::LIST_INSERT => *call = Call::ListInsert(
                self.byte(0)?,
                self.byte(1)?,
                self.byte(2)?,
            ),
            kind::LIST_POP => *call = Call::ListPop(self.byte(0)?),
            kind::LIST_CHOP => *call = Call::ListChop(self.byte(0)?),
            kind::LIST_REMOVE => *call = Call::ListRemove(self.byte(0)?, self.byte(1)?),
            kind::LIST_HEAD => *call = Call::ListHead(self.byte(0)?),
            kind::LIST_NEXT => *call = Call::ListNext(self.byte(0)?, self.byte(1)?),
            kind::LIST_LENGTH => *call = Call::ListLength(self.byte(0)?),
            _ => return None,
        }
        Some(())
    }

    /// A call about packets.
    fn packet_call(&self, call: &mut Call) -> Option<()>
        requires { (46 ≤ self.now.kind) × (self.now.kind ≤ 50) }
        ensures said { IfSome result (λ _. call_said self.now ≡ Some call.new) }
        ensures none { IfNone result (call_said self.now ≡ None) }
    {
        match self.kind {
            kind::PACKET_OPEN => *call = Call::PacketOpen,
            kind::PACKET_READ => *call = Call::PacketRead(self.size(0), self.byte(1)?),
            kind::PACKET_DONE => *call = Call::PacketDone,
            kind::PACKET_COUNT => *call = Call::PacketCount,
            kind::PACKET_SEND => *call = Call::PacketSend(self.byte(0)?),
            _ => return None,
        }
        Some(())
    }

    /// Puts the call that this says into the buffer. None where there is no such kind, a number is out of its range, or there are too
    /// many bytes: then the buffer may have any call.
    pub fn put(&self, call: &mut Call) -> Option<()>
        ensures said { IfSome result (λ _. call_said self.now ≡ Some call.new) }
        ensures none { IfNone result (call_said self.now ≡ None) }
    {
        match self.kind {
            kind::POST..=kind::ALLOC_EVENT => self.process_call(call),
            kind::TIMER_SET..=kind::EXIT => self.timer_call(call),
            kind::MMEM_ALLOC..=kind::MMEM_AVAIL => self.mmem_call(call),
            kind::HEAP_ALLOC..=kind::HEAP_STATS => self.heap_call(call),
            kind::MEMB_ALLOC..=kind::MEMB_NUM_FREE => self.memb_call(call),
            kind::LIST_ADD..=kind::LIST_LENGTH => self.list_call(call),
            kind::PACKET_OPEN..=kind::PACKET_SEND => self.packet_call(call),
            _ => None,
        }
    }

    /// The call that this says, as `put` puts it.
    pub fn call(&self) -> Option<Call>
        ensures { result ≡ call_said self.now }
    {
        let mut call = Call::Wait;
        match self.put(&mut call) {
            Some(()) => Some(call),
            None => None,
        }
    }
}

impl CallSource for PlainCall {
    ghost use Rattle.library_core.specs.Calls.{call_said};

    ghost said = { call_said };

    fn put_call(&self, call: &mut Call) -> bool {
        self.put(call).is_some()
    }
}
