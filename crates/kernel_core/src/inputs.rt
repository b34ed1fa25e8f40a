//! What reaches the mote from outside.

ghost use Rattle.std.specs.Prelude.{◌≡◌, ◌<◌, ◌≤◌, ◌+◌, ◌^◌, true, false, length, None, Some, IfErr, IfOk};
ghost use Rattle.mmem_core.specs.ManagedStore.{free};
ghost use Rattle.kernel_core.specs.Inputs.{effect, fed, frame_arrived, frame_held, frame_refusal};
ghost use Rattle.kernel_core.specs.Code.Conditions.{has_bytes, ticks_of};
ghost use Rattle.kernel_core.specs.Code.Pending.{no_pending_entries};
ghost use Rattle.mote_types.specs.declared.entry.Input.{Input as Handed};
ghost use Rattle.kernel_core.specs.Code.View.{machine_of, HoldsFrames, IsInOrder, IsTakenIn};
ghost use Rattle.kernel_core.specs.Code.Steps.{MakesEntry};
ghost use Rattle.kernel_core.specs.Run.{Choices, is_at_rest};
ghost use Rattle.mote_types.specs.declared.entry.Entry.{Entry as Made};
ghost use Rattle.device_core.specs.PacketQueue.{free_slot};
ghost use Rattle.node_memory.specs.Code.Placed.{last_owner};

use crate::kernel_fields::KernelFields;
use arrayvec::ArrayVec;
use device_core::packet_queue::MOST_FRAMES;
use mote_types::entry::Input;
use mote_types::event::{ETIMER, PACKET_PROCESS, SERIAL_PROCESS};
use mote_types::refusal::Refusal;
use mote_types::rounding::rounded;

impl KernelFields {
    /// The number of bytes of managed memory that are free for frames.
    fn free_bytes(&self) -> u32
        ensures { result ≡ free 3 self.now.memory.value.contents.managed }
    {
        self.memory.mmem_avail(PACKET_PROCESS)
    }

    /// Holds a frame, unless 8 are held or managed memory has no room for it, or process 3's quota.
    fn hold_frame(&mut self, bytes: &[u8]) -> Result<(), Refusal>
        requires least { 1 ≤ length bytes.now }
        requires most { length bytes.now ≤ 127 }
        requires frames { HoldsFrames self.old.memory.value.contents self.old.packets.frames }
        requires holder { 3 ≤ last_owner self.old.memory.value }
        ensures held { IfOk result (λ _. (frame_refusal (length bytes.now) (machine_of self.old) ≡ None)
            × (machine_of self.new ≡ frame_held (free_slot self.old.packets) bytes.now (machine_of self.old))) }
        ensures lost { IfErr result (λ refusal. (frame_refusal (length bytes.now) (machine_of self.old) ≡ Some refusal)
            × (machine_of self.new ≡ machine_of self.old)) }
        ensures kept { IsTakenIn self.old self.new }
        ensures clock { self.new.clock ≡ self.old.clock }
        ensures shown { self.new.pending ≡ self.old.pending }
    {
        if self.packets.held() as usize == MOST_FRAMES {
            return Err(Refusal::Full);
        }
        if u64::from(self.free_bytes()) < rounded(bytes.len() as u32) {
            return Err(self.memory.shortage());
        }
        let Some(slot) = self.packets.arrive(bytes.len() as u8) else {
            return Err(Refusal::Full);
        };
        self.memory.take_frame(slot, bytes)?;
        self.scheduler.mark(PACKET_PROCESS);
        Ok(())
    }

    /// A frame has arrived. Where it is lost, a note says why.
    fn receive_frame(&mut self, bytes: &[u8])
        requires least { 1 ≤ length bytes.now }
        requires most { length bytes.now ≤ 127 }
        requires frames { HoldsFrames self.old.memory.value.contents self.old.packets.frames }
        requires holder { 3 ≤ last_owner self.old.memory.value }
        requires shown { self.old.pending ≡ no_pending_entries }
        ensures machine { machine_of self.new ≡ frame_arrived bytes.now (machine_of self.old) }
        ensures kept { IsTakenIn self.old self.new }
        ensures clock { self.new.clock ≡ self.old.clock }
        ensures shown { self.new.pending.input ≡ None }
    {
        if let Err(refusal) = self.hold_frame(bytes) {
            self.pending.put_lost(refusal);
        }
    }

    /// Applies an input: advances the clock, or takes the bytes of the serial line or a frame.
    pub fn apply_input(&mut self, input: &Input)
        requires clock { self.old.clock + ticks_of input.now ≤ 2 ^ 62 }
        requires bytes { has_bytes input.now ≡ true }
        requires frames { HoldsFrames self.old.memory.value.contents self.old.packets.frames }
        requires holder { 3 ≤ last_owner self.old.memory.value }
        requires shown { self.old.pending ≡ no_pending_entries }
        ensures machine { machine_of self.new ≡ effect input.now (machine_of self.old) }
        ensures kept { IsTakenIn self.old self.new }
        ensures clock { self.new.clock ≡ self.old.clock + ticks_of input.now }
        ensures shown { self.new.pending.input ≡ None }
    {
        match input {
            Input::Tick(ticks) => {
                self.clock += *ticks as u64;
                self.scheduler.mark(ETIMER);
            }
            Input::Serial(bytes) => {
                self.serial.input(bytes.as_slice());
                self.scheduler.mark(SERIAL_PROCESS);
            }
            Input::Frame(bytes) => self.receive_frame(bytes.as_slice()),
        }
    }

    /// Feeds an input at rest, which the caller keeps, and makes its entry.
    #[inline]
    pub fn accept(&mut self, input: &Input)
        requires order { IsInOrder self.old }
        requires rest { is_at_rest (machine_of self.old) ≡ true }
        requires clock { self.old.clock + ticks_of input.now ≤ 2 ^ 62 }
        requires bytes { has_bytes input.now ≡ true }
        requires few { self.old.inputs < 2 ^ 40 }
        ensures machine { (choices : Choices)
            → MakesEntry choices (fed input.now (machine_of self.old)) (Made.Input input.now) (machine_of self.new) }
        ensures running { self.new.halted ≡ false }
        ensures clock { self.new.clock ≡ self.old.clock + ticks_of input.now }
        ensures applications { self.new.scheduler.state.applications ≡ self.old.scheduler.state.applications }
        ensures inputs { self.new.inputs ≡ self.old.inputs + 1 }
        ensures order { IsInOrder self.new }
    {
        self.work = 0;
        self.apply_input(input);
        self.inputs += 1;
    }

    /// Feeds an input at rest. Its entry is first.
    pub fn feed(&mut self, input: &Input)
        requires order { IsInOrder self.old }
        requires rest { is_at_rest (machine_of self.old) ≡ true }
        requires clock { self.old.clock + ticks_of input.now ≤ 2 ^ 62 }
        requires bytes { has_bytes input.now ≡ true }
        requires few { self.old.inputs < 2 ^ 40 }
        ensures machine { machine_of self.new ≡ fed input.now (machine_of self.old) }
        ensures inputs { self.new.inputs ≡ self.old.inputs + 1 }
        ensures order { IsInOrder self.new }
    {
        self.work = 0;
        self.apply_input(input);
        self.inputs += 1;
        self.pending.put_input(input);
    }

    /// As `feed`, of a tick.
    pub fn feed_ticks(&mut self, ticks: u32)
        requires order { IsInOrder self.old }
        requires rest { is_at_rest (machine_of self.old) ≡ true }
        requires clock { self.old.clock + ticks ≤ 2 ^ 62 }
        requires few { self.old.inputs < 2 ^ 40 }
        ensures machine { machine_of self.new ≡ fed (Handed.Tick ticks) (machine_of self.old) }
        ensures inputs { self.new.inputs ≡ self.old.inputs + 1 }
        ensures order { IsInOrder self.new }
    {
        self.work = 0;
        self.clock += ticks as u64;
        self.scheduler.mark(ETIMER);
        self.inputs += 1;
        self.pending.put_ticks(ticks);
    }

    /// As `feed`, of a frame.
    pub fn feed_frame(&mut self, bytes: &ArrayVec<u8, 127>)
        requires order { IsInOrder self.old }
        requires rest { is_at_rest (machine_of self.old) ≡ true }
        requires bytes { 1 ≤ length bytes.now.items }
        requires few { self.old.inputs < 2 ^ 40 }
        ensures machine { machine_of self.new ≡ fed (Handed.Frame bytes.now) (machine_of self.old) }
        ensures inputs { self.new.inputs ≡ self.old.inputs + 1 }
        ensures order { IsInOrder self.new }
    {
        self.work = 0;
        self.receive_frame(bytes.as_slice());
        self.inputs += 1;
        self.pending.put_frame(bytes);
    }
}
