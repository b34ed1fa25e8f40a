//! Copies of calls, in which a received value may replace the last word.

ghost use Rattle.std.specs.Prelude.{◌≡◌, ◌≤◌, take, length};
ghost use Rattle.call_lists.specs.RowFilling.{bytes_received, filled, last_chunk, last_number, last_payload, last_small, number_received};

use mote_types::call::Call;
use mote_types::event::Payload;
use mote_types::reply::Chunk;

/// The most bytes of a print or of a write.
const CHUNK: usize = 64;

/// The last word of a copy: that of the call, or the received value.
#[derive(Clone, Copy, Drop)]
struct LastWord<'a> {
    uses_received: bool,
    received: &'a Payload,
}

fn chunk_of(bytes: &[u8]) -> Chunk
    requires { length bytes.now ≤ 64 }
    ensures { result ≡ record { items = bytes.now } }
{
    let mut chunk = Chunk::new();
    let _ = chunk.try_extend_from_slice(bytes);
    chunk
}

/// The number that was received.
fn number_received(received: &Payload) -> u32
    ensures { result ≡ number_received received.now }
{
    match received {
        Payload::Num(number) => *number,
        _ => 0,
    }
}

/// The first bytes of a line, as many as a call has room for.
#[tactic(auto, using(std::proofs::lemmas::List::take_min))]
fn front_of(line: &[u8]) -> Chunk
    ensures { result ≡ record { items = take 64 line.now } }
{
    let (front, _) = line.split_at(CHUNK.min(line.len()));
    chunk_of(front)
}

/// The bytes that were received.
fn bytes_received(received: &Payload) -> Chunk
    ensures { result ≡ record { items = bytes_received received.now } }
{
    match received {
        Payload::Line(line) => front_of(line.as_slice()),
        _ => Chunk::new(),
    }
}

impl LastWord<'_> {
    fn number(self, word: u32) -> u32
        ensures { result ≡ last_number self.entry.uses_received self.entry.received.now word }
    {
        if self.uses_received {
            number_received(self.received)
        } else {
            word
        }
    }

    fn small(self, word: u8) -> u8
        ensures { result ≡ last_small self.entry.uses_received self.entry.received.now word }
    {
        if self.uses_received {
            number_received(self.received).min(255) as u8
        } else {
            word
        }
    }

    fn payload(self, word: &Payload) -> Payload
        ensures { result ≡ last_payload self.entry.uses_received self.entry.received.now word.now }
    {
        if self.uses_received {
            self.received.copied()
        } else {
            word.copied()
        }
    }

    fn chunk(self, word: &Chunk) -> Chunk
        ensures { result ≡ last_chunk self.entry.uses_received self.entry.received.now word.now }
    {
        if self.uses_received {
            bytes_received(self.received)
        } else {
            chunk_of(word.as_slice())
        }
    }
}

/// The same call once more; where that is asked for, with the received value as its last word.
pub(crate) fn filled(call: &Call, uses_received: bool, received: &Payload) -> Call
    ensures { result ≡ filled uses_received received.now call.now }
{
    let word = LastWord {
        uses_received,
        received,
    };
    match call {
        Call::Post(q, code, payload) => Call::Post(*q, *code, word.payload(payload)),
        Call::Broadcast(code, payload) => Call::Broadcast(*code, word.payload(payload)),
        Call::PostSynch(q, code, payload) => Call::PostSynch(*q, *code, word.payload(payload)),
        Call::Poll(q) => Call::Poll(word.small(*q)),
        Call::Start(q) => Call::Start(word.small(*q)),
        Call::Kill(q) => Call::Kill(word.small(*q)),
        Call::IsRunning(q) => Call::IsRunning(word.small(*q)),
        Call::AllocEvent => Call::AllocEvent,
        Call::TimerSet(timer, interval) => Call::TimerSet(*timer, word.number(*interval)),
        Call::TimerStop(timer) => Call::TimerStop(word.small(*timer)),
        Call::TimerReset(timer) => Call::TimerReset(word.small(*timer)),
        Call::TimerRestart(timer) => Call::TimerRestart(word.small(*timer)),
        Call::TimerExpired(timer) => Call::TimerExpired(word.small(*timer)),
        Call::CallbackSet(timer, interval) => Call::CallbackSet(*timer, word.number(*interval)),
        Call::CallbackStop(timer) => Call::CallbackStop(word.small(*timer)),
        Call::Clock => Call::Clock,
        Call::Print(bytes) => Call::Print(word.chunk(bytes)),
        Call::Wait => Call::Wait,
        Call::Exit => Call::Exit,
        Call::MmemAlloc(handle, length) => Call::MmemAlloc(*handle, word.number(*length)),
        Call::MmemFree(handle) => Call::MmemFree(word.small(*handle)),
        Call::MmemWrite(handle, at, bytes) => Call::MmemWrite(*handle, *at, word.chunk(bytes)),
        Call::MmemRead(handle, at, length) => Call::MmemRead(*handle, *at, word.small(*length)),
        Call::MmemCopy(from, to) => Call::MmemCopy(*from, word.small(*to)),
        Call::MmemAvail => Call::MmemAvail,
        Call::HeapAlloc(block, length) => Call::HeapAlloc(*block, word.number(*length)),
        Call::HeapRealloc(block, length) => Call::HeapRealloc(*block, word.number(*length)),
        Call::HeapFree(block) => Call::HeapFree(word.small(*block)),
        Call::HeapWrite(block, at, bytes) => Call::HeapWrite(*block, *at, word.chunk(bytes)),
        Call::HeapRead(block, at, length) => Call::HeapRead(*block, *at, word.small(*length)),
        Call::HeapStats => Call::HeapStats,
        Call::MembAlloc(pool) => Call::MembAlloc(word.small(*pool)),
        Call::MembFree(pool, block) => Call::MembFree(*pool, word.small(*block)),
        Call::MembWrite(pool, block, at, bytes) => Call::MembWrite(
            *pool,
            *block,
            *at,
            word.chunk(bytes),
        ),
        Call::MembRead(pool, block, at, length) => Call::MembRead(
            *pool,
            *block,
            *at,
            word.small(*length),
        ),
        Call::MembNumFree(pool) => Call::MembNumFree(word.small(*pool)),
        Call::ListAdd(list, block) => Call::ListAdd(*list, word.small(*block)),
        Call::ListPush(list, block) => Call::ListPush(*list, word.small(*block)),
        Call::ListInsert(list, previous, block) => Call::ListInsert(
            *list,
            *previous,
            word.small(*block),
        ),
        Call::ListPop(list) => Call::ListPop(word.small(*list)),
        Call::ListChop(list) => Call::ListChop(word.small(*list)),
        Call::ListRemove(list, block) => Call::ListRemove(*list, word.small(*block)),
        Call::ListHead(list) => Call::ListHead(word.small(*list)),
        Call::ListNext(list, block) => Call::ListNext(*list, word.small(*block)),
        Call::ListLength(list) => Call::ListLength(word.small(*list)),
        Call::PacketOpen => Call::PacketOpen,
        Call::PacketRead(at, length) => Call::PacketRead(*at, word.small(*length)),
        Call::PacketDone => Call::PacketDone,
        Call::PacketCount => Call::PacketCount,
        Call::PacketSend(handle) => Call::PacketSend(word.small(*handle)),
    }
}
