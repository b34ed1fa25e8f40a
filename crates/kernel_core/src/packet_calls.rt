//! What the kernel does at an application's calls on packets. A call that is refused changes nothing.

ghost use Rattle.std.specs.Prelude.{◌≡◌, ◌<◌, None, Some, IfErr, IfOk};
ghost use Rattle.device_core.specs.PacketQueue.{front_slot, is_receiver};
ghost use Rattle.kernel_core.specs.PacketCalls.{front_refusal};
ghost use Rattle.mote_types.specs.declared.call.Call.{Call};
ghost use Rattle.kernel_core.specs.Calls.{after_call};
ghost use Rattle.kernel_core.specs.Code.View.{machine_of, IsAtTurn, IsCarriedOut};

use crate::calls::answer_bytes;
use crate::kernel_fields::KernelFields;
use mote_types::event::{PACKET_PROCESS, Pid};
use mote_types::refusal::Refusal;
use mote_types::reply::Reply;
use node_memory::LONGEST_READ;

impl KernelFields {
    /// Whether an application is the one that frames are for.
    fn is_receiver(&self, pid: Pid) -> bool
        ensures { result ≡ is_receiver self.now.packets pid.0 }
    {
        match self.packets.receiver() {
            Some(receiver) => receiver.0 == pid.0,
            None => false,
        }
    }

    /// The application becomes the receiver, unless there is one already.
    pub fn open_packets(&mut self, pid: Pid)
        requires at_turn { IsAtTurn pid self.old }
        ensures machine { machine_of self.new ≡ after_call Call.PacketOpen pid.0 (machine_of self.old) }
        ensures kept { IsCarriedOut self.old self.new }
    {
        if self.scheduler.is_ending(pid) {
            return self.refuse(pid, Refusal::NotRunning);
        }
        if self.is_receiver(pid) {
            return self.refuse(pid, Refusal::Already);
        }
        if self.packets.receiver().is_some() {
            return self.refuse(pid, Refusal::Busy);
        }
        self.packets.claim(pid);
        self.scheduler.mark(PACKET_PROCESS);
        self.answer(pid, Reply::Done);
    }

    /// Reads from the front frame.
    pub fn read_packet(&mut self, pid: Pid, at: u32, len: u8)
        requires at_turn { IsAtTurn pid self.old }
        ensures machine { machine_of self.new ≡ after_call (Call.PacketRead at len) pid.0 (machine_of self.old) }
        ensures kept { IsCarriedOut self.old self.new }
    {
        match self.front_slot_for(pid) {
            Ok(slot) => {
                let bytes = self.memory.frame_bytes(slot);
                if len > LONGEST_READ || at as u64 + len as u64 > bytes.len() as u64 {
                    return self.refuse(pid, Refusal::Range);
                }
                let range = &bytes[at as usize..at as usize + len as usize];
                answer_bytes(&mut self.scheduler, pid, range);
            }
            Err(refusal) => self.refuse(pid, refusal),
        }
    }

    /// The slot of the front frame, which is only for the receiver.
    fn front_slot_for(&self, pid: Pid) -> Result<u8, Refusal>
        ensures held { IfOk result (λ slot. (front_refusal pid.0 (machine_of self.now) ≡ None)
            × (front_slot self.now.packets ≡ Some slot)) }
        ensures within { IfOk result (λ slot. slot < 8) }
        ensures refused { IfErr result (λ refusal. front_refusal pid.0 (machine_of self.now) ≡ Some refusal) }
    {
        if !self.is_receiver(pid) {
            return Err(Refusal::NotReceiver);
        }
        match self.packets.front() {
            Some(frame) => Ok(frame.slot),
            None => Err(Refusal::NoPacket),
        }
    }

    /// Releases the front frame.
    pub fn drop_packet(&mut self, pid: Pid)
        requires at_turn { IsAtTurn pid self.old }
        ensures machine { machine_of self.new ≡ after_call Call.PacketDone pid.0 (machine_of self.old) }
        ensures kept { IsCarriedOut self.old self.new }
    {
        if let Err(refusal) = self.front_slot_for(pid) {
            return self.refuse(pid, refusal);
        }
        let _held = self.packets.held();
        let slot = self.packets.done();
        self.memory.drop_frame(slot);
        self.answer(pid, Reply::Done);
    }

    /// Returns the number of held frames.
    pub fn count_packets(&mut self, pid: Pid)
        requires at_turn { IsAtTurn pid self.old }
        ensures machine { machine_of self.new ≡ after_call Call.PacketCount pid.0 (machine_of self.old) }
        ensures kept { IsCarriedOut self.old self.new }
    {
        let count = self.packets.held();
        self.answer(pid, Reply::Num(u32::from(count)));
    }

    /// Sends the bytes of a handle's block: a note has them, before the reply.
    pub fn send_packet(&mut self, pid: Pid, handle: u8)
        requires at_turn { IsAtTurn pid self.old }
        ensures machine { machine_of self.new ≡ after_call (Call.PacketSend handle) pid.0 (machine_of self.old) }
        ensures kept { IsCarriedOut self.old self.new }
    {
        match self.memory.send_bytes(pid, handle) {
            Ok(bytes) => {
                self.scheduler.answered(pid, Reply::Done);
                self.pending.put_sent(bytes);
            }
            Err(refusal) => self.refuse(pid, refusal),
        }
    }
}
