//! The part of memory that a call is on.

ghost use Rattle.std.specs.Prelude.{◌≡◌};
ghost use Rattle.node_memory.specs.Code.Parts as specs;
ghost use Rattle.node_memory.specs.Code.Conditions as specs_conditions;

use mote_types::call::Call;

/// A part of memory.
#[derive(Drop)]
pub enum Part {
    Managed,
    Heap,
    /// This pool with its lists. There are pools 0 to 3; a call may name another one.
    Pool(u8),
}

/// The part that a call is on, if it is on memory. Lists 2 k and 2 k + 1 are of pool k.
pub fn part_called(call: &Call) -> Option<Part>
    ensures { result ≡ specs.part_called call.now }
{
    match call {
        Call::MmemAlloc(..)
        | Call::MmemFree(_)
        | Call::MmemWrite(..)
        | Call::MmemRead(..)
        | Call::MmemCopy(..)
        | Call::MmemAvail => Some(Part::Managed),
        Call::HeapAlloc(..)
        | Call::HeapRealloc(..)
        | Call::HeapFree(_)
        | Call::HeapWrite(..)
        | Call::HeapRead(..)
        | Call::HeapStats => Some(Part::Heap),
        Call::MembAlloc(pool)
        | Call::MembFree(pool, _)
        | Call::MembWrite(pool, ..)
        | Call::MembRead(pool, ..)
        | Call::MembNumFree(pool) => Some(Part::Pool(*pool)),
        Call::ListAdd(list, _)
        | Call::ListPush(list, _)
        | Call::ListInsert(list, ..)
        | Call::ListPop(list)
        | Call::ListChop(list)
        | Call::ListRemove(list, _)
        | Call::ListHead(list)
        | Call::ListNext(list, _)
        | Call::ListLength(list) => Some(Part::Pool(*list / 2)),
        Call::Wait
        | Call::Exit
        | Call::Post(..)
        | Call::Broadcast(..)
        | Call::PostSynch(..)
        | Call::AllocEvent
        | Call::Poll(_)
        | Call::Start(_)
        | Call::Kill(_)
        | Call::IsRunning(_)
        | Call::TimerSet(..)
        | Call::TimerStop(_)
        | Call::TimerReset(_)
        | Call::TimerRestart(_)
        | Call::TimerExpired(_)
        | Call::CallbackSet(..)
        | Call::CallbackStop(_)
        | Call::Clock
        | Call::Print(_)
        | Call::PacketOpen
        | Call::PacketRead(..)
        | Call::PacketDone
        | Call::PacketCount
        | Call::PacketSend(_) => None,
    }
}

/// Whether a call is on memory, so that `NodeMemory::ask` replies to it.
pub fn is_memory_call(call: &Call) -> bool
    ensures { result ≡ specs_conditions.is_memory_call call.now }
{
    part_called(call).is_some()
}
