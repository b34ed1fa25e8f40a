//! Frames, each held in a managed block of process 3, and the bytes that an application sends.

ghost use Rattle.std.specs.Prelude.{◌≡◌, ◌≤◌, ◌<◌, true, false, None, Some, length, IsSome, IfOk, IfErr};
ghost use Rattle.mote_types.specs.Limits.{packet_process};
ghost use Rattle.mmem_core.specs.ManagedStore as store;
ghost use Rattle.mmem_core.specs.ManagedStore.{fits, shortage};
ghost use Rattle.node_memory.specs.Frames.{frame_taken, frame_dropped, send_refusal};
ghost use Rattle.node_memory.specs.Code.Conditions.{frame_in};
ghost use Rattle.node_memory.specs.Code.Placed.{last_owner};
ghost use Rattle.node_memory.specs.Code.Separation.{LeavesOthers, frame_block};

use crate::managed::LAST_HANDLE;
use crate::memory::NodeMemory;
use mote_types::event::Pid;
use mote_types::refusal::Refusal;

/// The process that holds the frames.
const FRAME_HOLDER: Pid = Pid(3);

/// The longest frame, in bytes (IEEE 802.15.4 at 2.4 GHz).
const LONGEST_FRAME: usize = 127;

impl NodeMemory {
    /// Stores a frame of 1 to 127 bytes in a slot from 0 to 7 that holds none.
    ///
    /// # Errors
    /// `NoRoom` exactly where managed memory has no room for its length, rounded up to a multiple of 4; where there are quotas,
    /// `OverQuota` exactly where that of process 3 has none. Then nothing changes.
    pub fn take_frame(&mut self, slot: u8, bytes: &[u8]) -> Result<(), Refusal>
        requires slot { slot < 8 }
        requires some_bytes { 1 ≤ length bytes.now }
        requires few_bytes { length bytes.now ≤ 127 }
        requires unused { frame_in slot self.old.contents ≡ None }
        ensures taken { IfOk result (λ _. (fits packet_process (length bytes.now) self.old.contents.managed ≡ true)
            × (self.new.contents ≡ frame_taken slot bytes.now self.old.contents)) }
        ensures refused { IfErr result (λ r. (r ≡ shortage self.old.contents.managed)
            × (fits packet_process (length bytes.now) self.old.contents.managed ≡ false)
            × (self.new ≡ self.old)) }
        ensures held { IfOk result (λ _. frame_in slot self.new.contents ≡ Some bytes.now) }
        ensures others { LeavesOthers (Some (frame_block slot)) self.old.contents self.new.contents }
        ensures owners { last_owner self.new ≡ last_owner self.old }
    {
        let key = (FRAME_HOLDER, slot);
        if self
            .mmem
            .alloc(&mut self.arena, key, bytes.len() as u32)
            .is_none()
        {
            return Err(self.mmem.shortage());
        }
        self.mmem.write(&mut self.arena, key, 0, bytes);
        Ok(())
    }

    /// Why a managed block for which there is no room is refused: `OverQuota` where there are quotas, otherwise `NoRoom`.
    pub fn shortage(&self) -> Refusal
        ensures { result ≡ shortage self.now.contents.managed }
    {
        let _arena = &self.arena;
        self.mmem.shortage()
    }

    /// Frees the block of the frame in a slot.
    pub fn drop_frame(&mut self, slot: u8)
        requires slot { slot < 8 }
        requires held { IsSome (frame_in slot self.old.contents) }
        ensures dropped { self.new.contents ≡ frame_dropped slot self.old.contents }
        ensures gone { frame_in slot self.new.contents ≡ None }
        ensures others { LeavesOthers (Some (frame_block slot)) self.old.contents self.new.contents }
        ensures owners { last_owner self.new ≡ last_owner self.old }
    {
        self.mmem.free(&mut self.arena, (FRAME_HOLDER, slot));
    }

    /// The bytes of the frame in a slot.
    pub fn frame_bytes(&self, slot: u8) -> &[u8]
        requires slot { slot < 8 }
        requires held { IsSome (frame_in slot self.now.contents) }
        ensures { frame_in slot self.now.contents ≡ Some result.now }
    {
        self.mmem.bytes(&self.arena, (FRAME_HOLDER, slot))
    }

    /// The bytes of an application's managed block, which it sends as a frame.
    ///
    /// # Errors
    /// `BadName` for a handle above 15, `NotLive` where the handle has no block, `Range` where the block has more than 127
    /// bytes.
    pub fn send_bytes(&self, pid: Pid, handle: u8) -> Result<&[u8], Refusal>
        requires least { 4 ≤ pid.0 }
        requires most { pid.0 ≤ 19 }
        ensures sent { IfOk result (λ bytes. (send_refusal pid.0 handle self.now.contents.managed ≡ None)
            × (store.block_of pid.0 handle self.now.contents.managed ≡ Some bytes.now)) }
        ensures refused { IfErr result (λ r. send_refusal pid.0 handle self.now.contents.managed ≡ Some r) }
    {
        if handle > LAST_HANDLE {
            return Err(Refusal::BadName);
        }
        if self.len_of((pid, handle)).is_none() {
            return Err(Refusal::NotLive);
        }
        let bytes = self.mmem.bytes(&self.arena, (pid, handle));
        if bytes.len() > LONGEST_FRAME {
            return Err(Refusal::Range);
        }
        Ok(bytes)
    }
}
