//! The calls, by what they are on.

ghost use Rattle.std.specs.Prelude.{◌≡◌};
ghost use Rattle.kernel_core.specs.Code.CallKinds.{kind_of};

use mote_types::call::Call;

/// What a call is on.
#[derive(Clone, Copy, Drop)]
pub enum CallKind {
    /// It ends the activation.
    Wait,
    /// On the processes, the caller among them: `Exit` too.
    Processes,
    Events,
    /// On timers, or the clock.
    Timers,
    /// On packets, or the printed text.
    Devices,
    /// On managed memory.
    Managed,
    /// On heap memory.
    Heap,
    /// On a pool, or on one of its lists.
    Pools,
}

impl CallKind {
    /// What a call is on.
    pub fn of(call: &Call) -> CallKind
        ensures { result ≡ kind_of call.now }
    {
        match call {
            Call::Wait => CallKind::Wait,
            Call::Exit | Call::Poll(_) | Call::Start(_) | Call::Kill(_) | Call::IsRunning(_) =>
                CallKind::Processes,
            Call::Post(..) | Call::Broadcast(..) | Call::PostSynch(..) | Call::AllocEvent => {
                CallKind::Events
            }
            Call::TimerSet(..)
            | Call::TimerStop(_)
            | Call::TimerReset(_)
            | Call::TimerRestart(_)
            | Call::TimerExpired(_)
            | Call::CallbackSet(..)
            | Call::CallbackStop(_)
            | Call::Clock => CallKind::Timers,
            Call::Print(_)
            | Call::PacketOpen
            | Call::PacketRead(..)
            | Call::PacketDone
            | Call::PacketCount
            | Call::PacketSend(_) => CallKind::Devices,
            Call::MmemAlloc(..)
            | Call::MmemFree(_)
            | Call::MmemWrite(..)
            | Call::MmemRead(..)
            | Call::MmemCopy(..)
            | Call::MmemAvail => CallKind::Managed,
            Call::HeapAlloc(..)
            | Call::HeapRealloc(..)
            | Call::HeapFree(_)
            | Call::HeapWrite(..)
            | Call::HeapRead(..)
            | Call::HeapStats => CallKind::Heap,
            Call::MembAlloc(_)
            | Call::MembFree(..)
            | Call::MembWrite(..)
            | Call::MembRead(..)
            | Call::MembNumFree(_)
            | Call::ListAdd(..)
            | Call::ListPush(..)
            | Call::ListInsert(..)
            | Call::ListPop(_)
            | Call::ListChop(_)
            | Call::ListRemove(..)
            | Call::ListHead(_)
            | Call::ListNext(..)
            | Call::ListLength(_) => CallKind::Pools,
        }
    }
}
