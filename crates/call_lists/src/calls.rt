//! From the words of a call, as in a transcript, to the call.

ghost use Rattle.std.specs.Prelude.{◌≡◌, IfOk, OnErr};
ghost use Rattle.call_lists.specs.Calls.{IsCall};
ghost use Rattle.call_lists.specs.Faults.{IsNoCall};
ghost use Rattle.call_lists.specs.Code.Readings.{block_words, device_words, left_by_call, left_in, pool_words, process_words};
ghost use Rattle.call_lists.specs.Code.Words.{IsTaken};

use crate::fault::CallFault;
use crate::words::Words;
use mote_types::call::Call;

/// A call on pools and lists.
#[tactic(auto, unfolding(crate::specs::Spaced::spaced))]
fn pool_call(words: &mut Words<'_>) -> Call
    ensures taken { IsTaken words.old result words.new }
    ensures left { left_in words.new ≡ left_by_call (pool_words words.old.name.now) (left_in words.old) }
{
    match words.name() {
        "memb-alloc" => Call::MembAlloc(words.small()),
        "memb-free" => Call::MembFree(words.small(), words.small()),
        "memb-write" => Call::MembWrite(
            words.small(),
            words.small(),
            words.number(),
            words.chunk(),
        ),
        "memb-read" => Call::MembRead(words.small(), words.small(), words.number(), words.small()),
        "memb-num-free" => Call::MembNumFree(words.small()),
        "list-add" => Call::ListAdd(words.small(), words.small()),
        "list-push" => Call::ListPush(words.small(), words.small()),
        "list-insert" => Call::ListInsert(words.small(), words.small(), words.small()),
        "list-pop" => Call::ListPop(words.small()),
        "list-chop" => Call::ListChop(words.small()),
        "list-remove" => Call::ListRemove(words.small(), words.small()),
        "list-head" => Call::ListHead(words.small()),
        "list-next" => Call::ListNext(words.small(), words.small()),
        "list-length" => Call::ListLength(words.small()),
        name => {
            words.note(CallFault::NoCall(name));
            Call::Wait
        }
    }
}

/// A call on managed memory, heap memory, pools and lists.
#[tactic(auto, unfolding(crate::specs::Spaced::spaced))]
fn block_call(words: &mut Words<'_>) -> Call
    ensures taken { IsTaken words.old result words.new }
    ensures left { left_in words.new ≡ left_by_call (block_words words.old.name.now) (left_in words.old) }
{
    match words.name() {
        "mmem-alloc" => Call::MmemAlloc(words.small(), words.number()),
        "mmem-free" => Call::MmemFree(words.small()),
        "mmem-write" => Call::MmemWrite(words.small(), words.number(), words.chunk()),
        "mmem-read" => Call::MmemRead(words.small(), words.number(), words.small()),
        "mmem-copy" => Call::MmemCopy(words.small(), words.small()),
        "mmem-avail" => Call::MmemAvail,
        "heap-alloc" => Call::HeapAlloc(words.small(), words.number()),
        "heap-realloc" => Call::HeapRealloc(words.small(), words.number()),
        "heap-free" => Call::HeapFree(words.small()),
        "heap-write" => Call::HeapWrite(words.small(), words.number(), words.chunk()),
        "heap-read" => Call::HeapRead(words.small(), words.number(), words.small()),
        "heap-stats" => Call::HeapStats,
        _ => pool_call(words),
    }
}

/// A call on timers and packets, or on blocks.
#[tactic(auto, unfolding(crate::specs::Spaced::spaced))]
fn device_call(words: &mut Words<'_>) -> Call
    ensures taken { IsTaken words.old result words.new }
    ensures left { left_in words.new ≡ left_by_call (device_words words.old.name.now) (left_in words.old) }
{
    match words.name() {
        "timer-set" => Call::TimerSet(words.small(), words.number()),
        "timer-stop" => Call::TimerStop(words.small()),
        "timer-reset" => Call::TimerReset(words.small()),
        "timer-restart" => Call::TimerRestart(words.small()),
        "timer-expired" => Call::TimerExpired(words.small()),
        "callback-set" => Call::CallbackSet(words.small(), words.number()),
        "callback-stop" => Call::CallbackStop(words.small()),
        "packet-open" => Call::PacketOpen,
        "packet-read" => Call::PacketRead(words.number(), words.small()),
        "packet-done" => Call::PacketDone,
        "packet-count" => Call::PacketCount,
        "packet-send" => Call::PacketSend(words.small()),
        _ => block_call(words),
    }
}

/// A call on events and processes, or on devices.
#[tactic(auto, unfolding(crate::specs::Spaced::spaced))]
fn process_call(words: &mut Words<'_>) -> Call
    ensures taken { IsTaken words.old result words.new }
    ensures left { left_in words.new ≡ left_by_call (process_words words.old.name.now) (left_in words.old) }
{
    match words.name() {
        "post" => Call::Post(words.small(), words.small(), words.payload()),
        "broadcast" => Call::Broadcast(words.small(), words.payload()),
        "post-synch" => Call::PostSynch(words.small(), words.small(), words.payload()),
        "poll" => Call::Poll(words.small()),
        "start" => Call::Start(words.small()),
        "kill" => Call::Kill(words.small()),
        "is-running" => Call::IsRunning(words.small()),
        "alloc-event" => Call::AllocEvent,
        "clock" => Call::Clock,
        "print" => Call::Print(words.chunk()),
        "wait" => Call::Wait,
        "exit" => Call::Exit,
        _ => device_call(words),
    }
}

/// The call of these words.
///
/// # Errors
///
/// Exactly where no call has these words: no call has this name, or one of its words is missing, too much, or malformed.
pub fn call_of(text: &str) -> Result<Call, CallFault<'_>>
    ensures taken { IfOk result (IsCall text.now) }
    ensures refused { OnErr result (IsNoCall text.now) }
{
    let mut words = Words::of(text);
    let call = process_call(&mut words);
    words.finish()?;
    Ok(call)
}
