//! The words of a call: an arrow, its own word, and after it its arguments, a blank after each.
#![tactic(auto, unfolding(crate::specs::Code::EntryLines::blanked))]

ghost use Rattle.std.specs.Prelude.{◌≡◌, ◌≤◌, ◌+◌, ◌++◌, [], ◌∷◌, take, codes, decimal};
ghost use Rattle.mote_text.specs.EntryText.{hex, payload_word, call_words};
ghost use Rattle.mote_text.specs.Code.EntryLines.{blanked};
ghost use Rattle.mote_text.specs.Code.Appending.{Puts};
ghost use Rattle.mote_text.specs.Code.CallWords.{argument_words};

use crate::page::Page;
use crate::words::put_payload;
use mote_types::call::Call;
use mote_types::event::Payload;
use mote_types::reply::Chunk;

/// The word that a call's text begins with, and its length. Blanks fill its block, so that each word is moved at once.
#[tactic(auto)]
fn word_of(call: &Call) -> (&'static [u8; 16], usize)
    ensures word { call_words call.now ≡ take result.1 result.0.now ∷ argument_words call.now }
    ensures blank { take (result.1 + 1) result.0.now ≡ take result.1 result.0.now ++ codes " " }
    ensures short { result.1 ≤ 13 }
{
    match call {
        Call::Post(..) => (b"post            ", 4),
        Call::Broadcast(..) => (b"broadcast       ", 9),
        Call::PostSynch(..) => (b"post-synch      ", 10),
        Call::Poll(_) => (b"poll            ", 4),
        Call::Start(_) => (b"start           ", 5),
        Call::Kill(_) => (b"kill            ", 4),
        Call::IsRunning(_) => (b"is-running      ", 10),
        Call::AllocEvent => (b"alloc-event     ", 11),
        Call::TimerSet(..) => (b"timer-set       ", 9),
        Call::TimerStop(_) => (b"timer-stop      ", 10),
        Call::TimerReset(_) => (b"timer-reset     ", 11),
        Call::TimerRestart(_) => (b"timer-restart   ", 13),
        Call::TimerExpired(_) => (b"timer-expired   ", 13),
        Call::CallbackSet(..) => (b"callback-set    ", 12),
        Call::CallbackStop(_) => (b"callback-stop   ", 13),
        Call::Clock => (b"clock           ", 5),
        Call::Print(_) => (b"print           ", 5),
        Call::Wait => (b"wait            ", 4),
        Call::Exit => (b"exit            ", 4),
        Call::MmemAlloc(..) => (b"mmem-alloc      ", 10),
        Call::MmemFree(_) => (b"mmem-free       ", 9),
        Call::MmemWrite(..) => (b"mmem-write      ", 10),
        Call::MmemRead(..) => (b"mmem-read       ", 9),
        Call::MmemCopy(..) => (b"mmem-copy       ", 9),
        Call::MmemAvail => (b"mmem-avail      ", 10),
        Call::HeapAlloc(..) => (b"heap-alloc      ", 10),
        Call::HeapRealloc(..) => (b"heap-realloc    ", 12),
        Call::HeapFree(_) => (b"heap-free       ", 9),
        Call::HeapWrite(..) => (b"heap-write      ", 10),
        Call::HeapRead(..) => (b"heap-read       ", 9),
        Call::HeapStats => (b"heap-stats      ", 10),
        Call::MembAlloc(_) => (b"memb-alloc      ", 10),
        Call::MembFree(..) => (b"memb-free       ", 9),
        Call::MembWrite(..) => (b"memb-write      ", 10),
        Call::MembRead(..) => (b"memb-read       ", 9),
        Call::MembNumFree(_) => (b"memb-num-free   ", 13),
        Call::ListAdd(..) => (b"list-add        ", 8),
        Call::ListPush(..) => (b"list-push       ", 9),
        Call::ListInsert(..) => (b"list-insert     ", 11),
        Call::ListPop(_) => (b"list-pop        ", 8),
        Call::ListChop(_) => (b"list-chop       ", 9),
        Call::ListRemove(..) => (b"list-remove     ", 11),
        Call::ListHead(_) => (b"list-head       ", 9),
        Call::ListNext(..) => (b"list-next       ", 9),
        Call::ListLength(_) => (b"list-length     ", 11),
        Call::PacketOpen => (b"packet-open     ", 11),
        Call::PacketRead(..) => (b"packet-read     ", 11),
        Call::PacketDone => (b"packet-done     ", 11),
        Call::PacketCount => (b"packet-count    ", 12),
        Call::PacketSend(_) => (b"packet-send     ", 11),
    }
}

/// Puts the number of what a call is on.
#[inline(always)]
fn put_name<const CAPACITY: usize>(page: &mut Page<CAPACITY>, at: usize, name: u8) -> usize
    requires { at + 4 ≤ CAPACITY }
    ensures { Puts page.old.bytes page.new.bytes at result 4 (blanked (decimal name ∷ [])) }
{
    page.put_small_number(at, name)
}

fn put_pair<const CAPACITY: usize>(
    page: &mut Page<CAPACITY>,
    at: usize,
    first: u8,
    second: u8,
) -> usize
    requires { at + 8 ≤ CAPACITY }
    ensures { Puts page.old.bytes page.new.bytes at result 8 (blanked (decimal first ∷ decimal second ∷ [])) }
{
    let at = put_name(page, at, first);
    put_name(page, at, second)
}

/// Puts a thing, and a length, an interval, or an offset in it.
fn put_sized<const CAPACITY: usize>(
    page: &mut Page<CAPACITY>,
    at: usize,
    name: u8,
    size: u32,
) -> usize
    requires { at + 25 ≤ CAPACITY }
    ensures { Puts page.old.bytes page.new.bytes at result 25 (blanked (decimal name ∷ decimal size ∷ [])) }
{
    let at = put_name(page, at, name);
    page.put_number(at, size)
}

/// Puts where a call reads, and how many bytes.
// As `put_hex`.
#[inline(never)]
fn put_span<const CAPACITY: usize>(
    page: &mut Page<CAPACITY>,
    at: usize,
    offset: u32,
    len: u8,
) -> usize
    requires { at + 25 ≤ CAPACITY }
    ensures { Puts page.old.bytes page.new.bytes at result 25 (blanked (decimal offset ∷ decimal len ∷ [])) }
{
    let at = page.put_number(at, offset);
    put_name(page, at, len)
}

/// Puts where a call writes, and what.
// As `put_hex`.
#[inline(never)]
fn put_chunk<const CAPACITY: usize>(
    page: &mut Page<CAPACITY>,
    at: usize,
    offset: u32,
    chunk: &Chunk,
) -> usize
    requires { at + 180 ≤ CAPACITY }
    ensures { Puts page.old.bytes page.new.bytes at result 160 (blanked (decimal offset ∷ hex chunk.now.items ∷ [])) }
{
    let at = page.put_number(at, offset);
    page.put_hex(at, chunk.as_slice())
}

/// Puts the code of an event, and what it carries.
// As `put_hex`.
#[inline(never)]
fn put_event<const CAPACITY: usize>(
    page: &mut Page<CAPACITY>,
    at: usize,
    code: u8,
    payload: &Payload,
) -> usize
    requires { at + 280 ≤ CAPACITY }
    ensures { Puts page.old.bytes page.new.bytes at result 260 (blanked (decimal code ∷ payload_word payload.now ∷ [])) }
{
    let at = put_name(page, at, code);
    put_payload(page, at, payload)
}

/// Puts a call's arguments.
fn put_arguments<const CAPACITY: usize>(page: &mut Page<CAPACITY>, at: usize, call: &Call) -> usize
    requires { at + 300 ≤ CAPACITY }
    ensures { Puts page.old.bytes page.new.bytes at result 280 (blanked (argument_words call.now)) }
{
    match *call {
        Call::AllocEvent
        | Call::Clock
        | Call::Wait
        | Call::Exit
        | Call::MmemAvail
        | Call::HeapStats
        | Call::PacketOpen
        | Call::PacketDone
        | Call::PacketCount => at,
        Call::Poll(name)
        | Call::Start(name)
        | Call::Kill(name)
        | Call::IsRunning(name)
        | Call::TimerStop(name)
        | Call::TimerReset(name)
        | Call::TimerRestart(name)
        | Call::TimerExpired(name)
        | Call::CallbackStop(name)
        | Call::MmemFree(name)
        | Call::HeapFree(name)
        | Call::MembAlloc(name)
        | Call::MembNumFree(name)
        | Call::ListPop(name)
        | Call::ListChop(name)
        | Call::ListHead(name)
        | Call::ListLength(name)
        | Call::PacketSend(name) => put_name(page, at, name),
        Call::MmemCopy(first, second)
        | Call::MembFree(first, second)
        | Call::ListAdd(first, second)
        | Call::ListPush(first, second)
        | Call::ListRemove(first, second)
        | Call::ListNext(first, second) => put_pair(page, at, first, second),
        Call::ListInsert(list, prev, block) => {
            let at = put_pair(page, at, list, prev);
            put_name(page, at, block)
        }
        Call::TimerSet(name, size)
        | Call::CallbackSet(name, size)
        | Call::MmemAlloc(name, size)
        | Call::HeapAlloc(name, size)
        | Call::HeapRealloc(name, size) => put_sized(page, at, name, size),
        Call::MmemRead(name, offset, len) | Call::HeapRead(name, offset, len) => {
            let at = put_name(page, at, name);
            put_span(page, at, offset, len)
        }
        Call::MmemWrite(name, offset, ref chunk) | Call::HeapWrite(name, offset, ref chunk) => {
            let at = put_name(page, at, name);
            put_chunk(page, at, offset, chunk)
        }
        Call::MembRead(pool, block, offset, len) => {
            let at = put_pair(page, at, pool, block);
            put_span(page, at, offset, len)
        }
        Call::MembWrite(pool, block, offset, ref chunk) => {
            let at = put_pair(page, at, pool, block);
            put_chunk(page, at, offset, chunk)
        }
        Call::PacketRead(offset, len) => put_span(page, at, offset, len),
        Call::Post(process, code, ref payload) | Call::PostSynch(process, code, ref payload) => {
            let at = put_name(page, at, process);
            put_event(page, at, code, payload)
        }
        Call::Broadcast(code, ref payload) => put_event(page, at, code, payload),
        Call::Print(ref chunk) => page.put_hex(at, chunk.as_slice()),
    }
}

/// Puts an arrow and a call that is not `Wait`, which most are.
#[inline(never)]
fn put_other_call<const CAPACITY: usize>(page: &mut Page<CAPACITY>, at: usize, call: &Call) -> usize
    requires { at + 320 ≤ CAPACITY }
    ensures { Puts page.old.bytes page.new.bytes at result 297 (blanked (codes "->" ∷ call_words call.now)) }
{
    let at = page.put_front(at, b"->              ", 3);
    let (block, len) = word_of(call);
    let at = page.put_front(at, block, len + 1);
    put_arguments(page, at, call)
}

/// Puts an arrow and what a process called, at most 297 bytes.
#[inline(always)]
pub(crate) fn put_call<const CAPACITY: usize>(
    page: &mut Page<CAPACITY>,
    at: usize,
    call: &Call,
) -> usize
    requires { at + 320 ≤ CAPACITY }
    ensures { Puts page.old.bytes page.new.bytes at result 297 (blanked (codes "->" ∷ call_words call.now)) }
{
    if let Call::Wait = call {
        return page.put_front(at, b"-> wait         ", 8);
    }
    put_other_call(page, at, call)
}
