//! What the kernel does at an application's call.

ghost use Rattle.std.specs.Prelude.{◌≡◌, ◌≤◌, Some, length};
ghost use Rattle.mote_types.specs.declared.event.Stimulus.{Stimulus};
ghost use Rattle.mote_types.specs.declared.reply.Reply.{Reply as Answered};
ghost use Rattle.node_memory.specs.Code.Outcomes.{reply_to};
ghost use Rattle.process_core.specs.Requests as request;
ghost use Rattle.process_core.specs.Code.SchedulerView.{awaiting_nothing};
ghost use Rattle.kernel_core.specs.Calls.{after_call};
ghost use Rattle.kernel_core.specs.Code.CallKinds.{kind_of};
ghost use Rattle.kernel_core.specs.Code.Pending.{no_pending_entries};
ghost use Rattle.kernel_core.specs.Code.View.{machine_of, IsAnswered, IsAtTurn, IsCarriedOut};
ghost use Rattle.kernel_core.specs.declared.call_kind.CallKind as kinds;

use crate::call_kind::CallKind;
use crate::kernel_fields::KernelFields;
use mote_types::call::Call;
use mote_types::event::Pid;
use mote_types::refusal::Refusal;
use mote_types::reply::Reply;
use process_core::scheduler::Scheduler;

/// The application that has the turn gets these bytes in its next turn, as the reply to a read.
// Of the scheduler alone, since the bytes may be lent by the memory.
pub fn answer_bytes(scheduler: &mut Scheduler, pid: Pid, bytes: &[u8])
    requires turn { scheduler.old.turn ≡ Some pid }
    requires few { length bytes.now ≤ 64 }
    ensures { scheduler.new ≡ awaiting_nothing
        (request.answered pid.0 (Answered.Bytes (record { items = bytes.now })) scheduler.old.state)
        (record scheduler.old.kept { reply = Stimulus.Answer (Answered.Bytes (record { items = bytes.now })) }) }
{
    scheduler.answered_bytes(pid, bytes);
}

impl KernelFields {
    /// The application gets the reply in its next turn.
    pub fn answer(&mut self, pid: Pid, reply: Reply)
        requires turn { self.old.scheduler.turn ≡ Some pid }
        requires nothing_shown { self.old.pending ≡ no_pending_entries }
        ensures { IsAnswered pid reply self.old self.new }
    {
        self.scheduler.answered(pid, reply);
    }

    /// The application gets the refusal of its call in its next turn.
    pub fn refuse(&mut self, pid: Pid, refusal: Refusal)
        requires turn { self.old.scheduler.turn ≡ Some pid }
        requires nothing_shown { self.old.pending ≡ no_pending_entries }
        ensures { IsAnswered pid (Answered.Refused refusal) self.old self.new }
    {
        self.answer(pid, Reply::Refused(refusal));
    }

    /// The application gets `Done` in its next turn, or the refusal of its call.
    #[inline(always)]
    pub fn tell(&mut self, pid: Pid, outcome: Result<(), Refusal>)
        requires turn { self.old.scheduler.turn ≡ Some pid }
        requires nothing_shown { self.old.pending ≡ no_pending_entries }
        ensures { IsAnswered pid (reply_to outcome) self.old self.new }
    {
        match outcome {
            Ok(()) => self.answer(pid, Reply::Done),
            Err(refusal) => self.refuse(pid, refusal),
        }
    }

    /// Passes the call of the application that has the turn to the part that executes it.
    pub fn dispatch(&mut self, pid: Pid, call: &Call)
        requires at_turn { IsAtTurn pid self.old }
        ensures machine { machine_of self.new ≡ after_call call.now pid.0 (machine_of self.old) }
        ensures kept { IsCarriedOut self.old self.new }
    {
        match CallKind::of(call) {
            CallKind::Wait => self.scheduler.waited(pid),
            CallKind::Processes => self.ask_processes(pid, call),
            CallKind::Events => self.ask_events(pid, call),
            CallKind::Timers => self.ask_timers(pid, call),
            CallKind::Devices => self.ask_devices(pid, call),
            CallKind::Managed => self.ask_managed(pid, call),
            CallKind::Heap => self.ask_heap(pid, call),
            CallKind::Pools => self.ask_pools(pid, call),
        }
    }

    /// Executes a call on processes.
    fn ask_processes(&mut self, pid: Pid, call: &Call)
        requires at_turn { IsAtTurn pid self.old }
        requires kind { kind_of call.now ≡ kinds.CallKind.Processes }
        ensures machine { machine_of self.new ≡ after_call call.now pid.0 (machine_of self.old) }
        ensures kept { IsCarriedOut self.old self.new }
    {
        match call {
            Call::Exit => self.scheduler.ended(pid),
            Call::Poll(process) => self.poll(pid, *process),
            Call::Start(process) => self.start(pid, *process),
            Call::Kill(process) => self.kill(pid, *process),
            Call::IsRunning(process) => self.is_running(pid, *process),
            _ => unreachable!(),
        }
    }

    /// Executes a call on events.
    fn ask_events(&mut self, pid: Pid, call: &Call)
        requires at_turn { IsAtTurn pid self.old }
        requires kind { kind_of call.now ≡ kinds.CallKind.Events }
        ensures machine { machine_of self.new ≡ after_call call.now pid.0 (machine_of self.old) }
        ensures kept { IsCarriedOut self.old self.new }
    {
        match call {
            Call::Post(receiver, code, payload) => self.post(pid, *receiver, *code, payload),
            Call::Broadcast(code, payload) => self.broadcast(pid, *code, payload),
            Call::PostSynch(receiver, code, payload) => {
                self.post_synch(pid, *receiver, *code, payload)
            }
            Call::AllocEvent => self.alloc_event(pid),
            _ => unreachable!(),
        }
    }

    /// Executes a call on timers, or on the clock.
    fn ask_timers(&mut self, pid: Pid, call: &Call)
        requires at_turn { IsAtTurn pid self.old }
        requires kind { kind_of call.now ≡ kinds.CallKind.Timers }
        ensures machine { machine_of self.new ≡ after_call call.now pid.0 (machine_of self.old) }
        ensures kept { IsCarriedOut self.old self.new }
    {
        match call {
            Call::TimerSet(timer, interval) => self.set_timer(pid, *timer, *interval),
            Call::TimerStop(timer) => self.stop_timer(pid, *timer),
            Call::TimerReset(timer) => self.reset_timer(pid, *timer),
            Call::TimerRestart(timer) => self.restart_timer(pid, *timer),
            Call::TimerExpired(timer) => self.is_timer_expired(pid, *timer),
            Call::CallbackSet(timer, interval) => self.set_callback(pid, *timer, *interval),
            Call::CallbackStop(timer) => self.stop_callback(pid, *timer),
            Call::Clock => self.answer(pid, Reply::Wide(self.clock)),
            _ => unreachable!(),
        }
    }

    /// Executes a call on packets, or on the printed text.
    fn ask_devices(&mut self, pid: Pid, call: &Call)
        requires at_turn { IsAtTurn pid self.old }
        requires kind { kind_of call.now ≡ kinds.CallKind.Devices }
        ensures machine { machine_of self.new ≡ after_call call.now pid.0 (machine_of self.old) }
        ensures kept { IsCarriedOut self.old self.new }
    {
        match call {
            Call::Print(_) => self.answer(pid, Reply::Done),
            Call::PacketOpen => self.open_packets(pid),
            Call::PacketRead(at, len) => self.read_packet(pid, *at, *len),
            Call::PacketDone => self.drop_packet(pid),
            Call::PacketCount => self.count_packets(pid),
            Call::PacketSend(handle) => self.send_packet(pid, *handle),
            _ => unreachable!(),
        }
    }

    /// Executes a call on managed memory.
    #[inline(always)]
    fn ask_managed(&mut self, pid: Pid, call: &Call)
        requires at_turn { IsAtTurn pid self.old }
        requires kind { kind_of call.now ≡ kinds.CallKind.Managed }
        ensures machine { machine_of self.new ≡ after_call call.now pid.0 (machine_of self.old) }
        ensures kept { IsCarriedOut self.old self.new }
    {
        match call {
            Call::MmemAlloc(handle, n) => self.alloc_managed(pid, *handle, *n),
            Call::MmemFree(handle) => self.free_managed(pid, *handle),
            Call::MmemWrite(handle, at, chunk) => { self.write_managed(pid, *handle, *at, chunk) }
            Call::MmemRead(handle, at, len) => self.read_managed(pid, *handle, *at, *len),
            Call::MmemCopy(source, target) => self.copy_managed(pid, *source, *target),
            Call::MmemAvail => self.count_managed(pid),
            _ => unreachable!(),
        }
    }

    /// Executes a call on heap memory.
    // A function of its own, as each call on managed memory is.
    #[inline(never)]
    fn ask_heap(&mut self, pid: Pid, call: &Call)
        requires at_turn { IsAtTurn pid self.old }
        requires kind { kind_of call.now ≡ kinds.CallKind.Heap }
        ensures machine { machine_of self.new ≡ after_call call.now pid.0 (machine_of self.old) }
        ensures kept { IsCarriedOut self.old self.new }
    {
        match call {
            Call::HeapAlloc(block, n) => self.alloc_in_heap(pid, *block, *n),
            Call::HeapRealloc(block, n) => self.resize_in_heap(pid, *block, *n),
            Call::HeapFree(block) => self.free_in_heap(pid, *block),
            Call::HeapWrite(block, at, chunk) => self.write_in_heap(pid, *block, *at, chunk),
            Call::HeapRead(block, at, len) => self.read_in_heap(pid, *block, *at, *len),
            Call::HeapStats => self.tell_heap_stats(pid),
            _ => unreachable!(),
        }
    }

    /// Executes a call on a pool, or on one of its lists.
    #[inline(never)]
    fn ask_pools(&mut self, pid: Pid, call: &Call)
        requires at_turn { IsAtTurn pid self.old }
        requires kind { kind_of call.now ≡ kinds.CallKind.Pools }
        ensures machine { machine_of self.new ≡ after_call call.now pid.0 (machine_of self.old) }
        ensures kept { IsCarriedOut self.old self.new }
    {
        let reply = self.memory.ask(pid, call);
        self.answer(pid, reply);
    }
}
