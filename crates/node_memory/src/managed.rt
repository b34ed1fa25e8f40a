//! The calls on managed memory, each with its refusals.

ghost use Rattle.std.specs.Prelude.{◌≡◌, ◌≤◌, None, Some, length, IfOk, IfErr};
ghost use Rattle.mmem_core.specs.ManagedStore as store;
ghost use Rattle.mmem_core.specs.Code.Conditions as store_conditions;
ghost use Rattle.mote_types.specs.Bytes.{range_of};
ghost use Rattle.mote_types.specs.Code.Conditions.{IsName};
ghost use Rattle.mote_types.specs.declared.call.Call.{Call};
ghost use Rattle.node_memory.specs.Code.Ask.{ask};
ghost use Rattle.node_memory.specs.BlockRefusals as block;
ghost use Rattle.node_memory.specs.ManagedCalls as calls;
ghost use Rattle.node_memory.specs.Memory.{with_managed};
ghost use Rattle.node_memory.specs.Code.Placed.{last_owner};
ghost use Rattle.node_memory.specs.Code.Separation.{BlockName, LeavesOthers};

use crate::memory::NodeMemory;
use crate::ranges::{LONGEST_READ, chunk_of, is_outside, range_in};
use mote_types::block_name::Key;
use mote_types::event::Pid;
use mote_types::refusal::Refusal;
use mote_types::reply::Reply;

/// The last handle of each process.
pub(crate) const LAST_HANDLE: u8 = 15;

impl NodeMemory {
    /// The length of a block, if it is live.
    pub(crate) fn len_of(&self, key: Key) -> Option<u32>
        requires { IsName key.0.0 key.1 }
        ensures { result ≡ store_conditions.length_of key.0.0 key.1 self.now.contents.managed }
    {
        let _arena = &self.arena;
        self.mmem.len_of(key)
    }

    /// Allocates a block of `n` zeros for a handle.
    ///
    /// # Errors
    /// `BadName`, `InUse`, `Range` where `n` is 0; `OverQuota` where there are quotas, otherwise `NoRoom`.
    pub fn mmem_alloc(&mut self, pid: Pid, handle: u8, n: u32) -> Result<(), Refusal>
        requires least { 3 ≤ pid.0 }
        requires most { pid.0 ≤ 19 }
        requires owner { pid.0 ≤ last_owner self.old }
        ensures accepted { IfOk result (λ _. (calls.alloc_refusal pid.0 handle n self.old.contents.managed ≡ None)
            × (self.new.contents ≡ with_managed (store.allocated pid.0 handle n self.old.contents.managed) self.old.contents)) }
        ensures refused { IfErr result (λ r. (calls.alloc_refusal pid.0 handle n self.old.contents.managed ≡ Some r)
            × (self.new ≡ self.old)) }
        ensures others { LeavesOthers (Some (BlockName.Managed pid.0 handle)) self.old.contents self.new.contents }
        ensures owners { last_owner self.new ≡ last_owner self.old }
    {
        if handle > LAST_HANDLE {
            return Err(Refusal::BadName);
        }
        if self.len_of((pid, handle)).is_some() {
            return Err(Refusal::InUse);
        }
        if n == 0 {
            return Err(Refusal::Range);
        }
        if self.mmem.alloc(&mut self.arena, (pid, handle), n).is_none() {
            return Err(self.mmem.shortage());
        }
        Ok(())
    }

    /// Frees a handle's block.
    ///
    /// # Errors
    /// `BadName` or `NotLive`.
    pub fn mmem_free(&mut self, pid: Pid, handle: u8) -> Result<(), Refusal>
        requires least { 3 ≤ pid.0 }
        requires most { pid.0 ≤ 19 }
        ensures accepted { IfOk result (λ _. (block.live_refusal handle (store.block_of pid.0 handle self.old.contents.managed) ≡ None)
            × (self.new.contents ≡ with_managed (store.freed pid.0 handle self.old.contents.managed) self.old.contents)) }
        ensures refused { IfErr result (λ r. (block.live_refusal handle (store.block_of pid.0 handle self.old.contents.managed) ≡ Some r)
            × (self.new ≡ self.old)) }
        ensures others { LeavesOthers (Some (BlockName.Managed pid.0 handle)) self.old.contents self.new.contents }
        ensures owners { last_owner self.new ≡ last_owner self.old }
    {
        if handle > LAST_HANDLE {
            return Err(Refusal::BadName);
        }
        if self.len_of((pid, handle)).is_none() {
            return Err(Refusal::NotLive);
        }
        self.mmem.free(&mut self.arena, (pid, handle));
        Ok(())
    }

    /// Writes bytes into a handle's block, from offset `at` on.
    ///
    /// # Errors
    /// `BadName`, `NotLive` or `Range`.
    pub fn mmem_write(&mut self, pid: Pid, handle: u8, at: u32, bytes: &[u8]) -> Result<(), Refusal>
        requires least { 3 ≤ pid.0 }
        requires most { pid.0 ≤ 19 }
        requires few { length bytes.now ≤ 64 }
        ensures accepted { IfOk result
            (λ _. (block.write_refusal handle at (length bytes.now) (store.block_of pid.0 handle self.old.contents.managed) ≡ None)
            × (self.new.contents ≡ with_managed (store.with_bytes pid.0 handle at bytes.now self.old.contents.managed) self.old.contents)) }
        ensures refused { IfErr result
            (λ r. (block.write_refusal handle at (length bytes.now) (store.block_of pid.0 handle self.old.contents.managed) ≡ Some r)
            × (self.new ≡ self.old)) }
        ensures others { LeavesOthers (Some (BlockName.Managed pid.0 handle)) self.old.contents self.new.contents }
        ensures owners { last_owner self.new ≡ last_owner self.old }
    {
        if handle > LAST_HANDLE {
            return Err(Refusal::BadName);
        }
        let Some(block) = self.len_of((pid, handle)) else {
            return Err(Refusal::NotLive);
        };
        if is_outside(at, bytes.len(), block as usize) {
            return Err(Refusal::Range);
        }
        self.mmem.write(&mut self.arena, (pid, handle), at, bytes);
        Ok(())
    }

    /// The `len` bytes of a handle's block from offset `at` on.
    ///
    /// # Errors
    /// `BadName`, `NotLive`, or `Range`: also where `len` is above 64.
    pub fn mmem_range(&self, pid: Pid, handle: u8, at: u32, len: u8) -> Result<&[u8], Refusal>
        requires least { 3 ≤ pid.0 }
        requires most { pid.0 ≤ 19 }
        ensures read { IfOk result
            (λ bytes. (block.read_refusal handle at len (store.block_of pid.0 handle self.now.contents.managed) ≡ None)
            × (bytes.now ≡ range_of at len (store.bytes_of pid.0 handle self.now.contents.managed))) }
        ensures length { IfOk result (λ bytes. (length bytes.now ≡ len) × (len ≤ 64)) }
        ensures refused { IfErr result
            (λ r. block.read_refusal handle at len (store.block_of pid.0 handle self.now.contents.managed) ≡ Some r) }
    {
        if handle > LAST_HANDLE {
            return Err(Refusal::BadName);
        }
        let Some(block) = self.len_of((pid, handle)) else {
            return Err(Refusal::NotLive);
        };
        if len > LONGEST_READ || is_outside(at, len as usize, block as usize) {
            return Err(Refusal::Range);
        }
        let bytes = self.mmem.bytes(&self.arena, (pid, handle));
        Ok(range_in(bytes, at, len))
    }

    /// The reply to a read.
    pub(crate) fn mmem_read(&self, pid: Pid, handle: u8, at: u32, len: u8) -> Reply
        requires least { 3 ≤ pid.0 }
        requires most { pid.0 ≤ 19 }
        ensures { ask (Call.MmemRead handle at len) pid.0 self.now.contents ≡ (self.now.contents, result) }
    {
        match self.mmem_range(pid, handle, at, len) {
            Ok(bytes) => Reply::Bytes(chunk_of(bytes)),
            Err(refusal) => Reply::Refused(refusal),
        }
    }

    /// Copies all bytes of one handle's block to the front of another one's.
    ///
    /// # Errors
    /// `BadName`, `NotLive`, or `Range` where the target is shorter.
    pub fn mmem_copy(&mut self, pid: Pid, source: u8, target: u8) -> Result<(), Refusal>
        requires least { 3 ≤ pid.0 }
        requires most { pid.0 ≤ 19 }
        ensures accepted { IfOk result (λ _. (calls.copy_refusal pid.0 source target self.old.contents.managed ≡ None)
            × (self.new.contents ≡ with_managed (store.copied pid.0 source pid.0 target self.old.contents.managed) self.old.contents)) }
        ensures refused { IfErr result (λ r. (calls.copy_refusal pid.0 source target self.old.contents.managed ≡ Some r)
            × (self.new ≡ self.old)) }
        ensures others { LeavesOthers (Some (BlockName.Managed pid.0 target)) self.old.contents self.new.contents }
        ensures owners { last_owner self.new ≡ last_owner self.old }
    {
        if let Some(refusal) = self.copy_refusal(pid, source, target) {
            return Err(refusal);
        }
        self.mmem
            .copy(&mut self.arena, (pid, source), (pid, target));
        Ok(())
    }

    /// Why one handle's block may not be copied to another one's, if it may not.
    fn copy_refusal(&self, pid: Pid, source: u8, target: u8) -> Option<Refusal>
        requires least { 3 ≤ pid.0 }
        requires most { pid.0 ≤ 19 }
        ensures { result ≡ calls.copy_refusal pid.0 source target self.now.contents.managed }
    {
        if source > LAST_HANDLE || target > LAST_HANDLE {
            return Some(Refusal::BadName);
        }
        match (self.len_of((pid, source)), self.len_of((pid, target))) {
            (Some(from), Some(to)) if from <= to => None,
            (Some(_), Some(_)) => Some(Refusal::Range),
            _ => Some(Refusal::NotLive),
        }
    }

    /// The number of bytes of managed memory that are free for a process.
    pub fn mmem_avail(&self, pid: Pid) -> u32
        requires least { 3 ≤ pid.0 }
        requires most { pid.0 ≤ 19 }
        ensures { result ≡ store.free pid.0 self.now.contents.managed }
    {
        let _arena = &self.arena;
        self.mmem.avail(pid)
    }
}
