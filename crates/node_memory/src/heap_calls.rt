//! The calls on heap memory, each with its refusals. A call that is refused changes no block.

ghost use Rattle.std.specs.Prelude.{◌≡◌, ◌≤◌, length, IfOk, IfErr};
ghost use Rattle.mote_types.specs.Code.Conditions.{IsName};
ghost use Rattle.mote_types.specs.declared.call.Call.{Call};
ghost use Rattle.mote_types.specs.declared.reply.Reply.{Reply as Answer};
ghost use Rattle.heap_core.specs.HeapStore as store;
ghost use Rattle.heap_core.specs.Code.Conditions as store_conditions;
ghost use Rattle.node_memory.specs.Code.Ask.{ask};
ghost use Rattle.node_memory.specs.Code.Outcomes.{reply_to};
ghost use Rattle.node_memory.specs.Code.Conditions.{IfRefused};
ghost use Rattle.node_memory.specs.Code.Placed.{last_owner};
ghost use Rattle.node_memory.specs.Code.Separation.{LeavesAll};

use crate::memory::NodeMemory;
use crate::ranges::{LONGEST_READ, chunk_of, is_outside, range_in};
use mote_types::block_name::Key;
use mote_types::event::Pid;
use mote_types::refusal::Refusal;
use mote_types::reply::{HeapStats, Reply};

/// The last block of each process.
const LAST_HEAP_BLOCK: u8 = 15;

#[tactic(auto, using(crate::proofs::LaidOut::after_heap))]
impl NodeMemory {
    /// The length of a block as it was asked for, if it is live.
    fn heap_len_of(&self, key: Key) -> Option<u32>
        requires { IsName key.0.0 key.1 }
        ensures { result ≡ store_conditions.length_of key.0.0 key.1 self.now.contents.heap }
    {
        self.heap.len_of(&self.arena, key)
    }

    /// Makes a block of `n` zeros.
    ///
    /// # Errors
    /// `BadName`, `InUse`, `Range` where `n` is 0, or `NoRoom`.
    pub fn heap_alloc(&mut self, pid: Pid, block: u8, n: u32) -> Result<(), Refusal>
        requires least { 3 ≤ pid.0 }
        requires most { pid.0 ≤ 19 }
        ensures asked { ask (Call.HeapAlloc block n) pid.0 self.old.contents ≡ (self.new.contents, reply_to result) }
        ensures refused { IfRefused (reply_to result) (LeavesAll (Call.HeapAlloc block n) (reply_to result) self.old self.new) }
        ensures owners { last_owner self.new ≡ last_owner self.old }
    {
        if block > LAST_HEAP_BLOCK {
            return Err(Refusal::BadName);
        }
        if self.heap_len_of((pid, block)).is_some() {
            return Err(Refusal::InUse);
        }
        if n == 0 {
            return Err(Refusal::Range);
        }
        if self.heap.alloc(&mut self.arena, (pid, block), n).is_none() {
            return Err(Refusal::NoRoom);
        }
        Ok(())
    }

    /// Resizes a block: its first bytes stay, and further ones are 0.
    ///
    /// # Errors
    /// `BadName`, `NotLive`, `Range` where `n` is 0, or `NoRoom`.
    pub fn heap_realloc(&mut self, pid: Pid, block: u8, n: u32) -> Result<(), Refusal>
        requires least { 3 ≤ pid.0 }
        requires most { pid.0 ≤ 19 }
        ensures asked { ask (Call.HeapRealloc block n) pid.0 self.old.contents ≡ (self.new.contents, reply_to result) }
        ensures refused { IfRefused (reply_to result) (LeavesAll (Call.HeapRealloc block n) (reply_to result) self.old self.new) }
        ensures owners { last_owner self.new ≡ last_owner self.old }
    {
        if block > LAST_HEAP_BLOCK {
            return Err(Refusal::BadName);
        }
        if self.heap_len_of((pid, block)).is_none() {
            return Err(Refusal::NotLive);
        }
        if n == 0 {
            return Err(Refusal::Range);
        }
        if self
            .heap
            .realloc(&mut self.arena, (pid, block), n)
            .is_none()
        {
            return Err(Refusal::NoRoom);
        }
        Ok(())
    }

    /// Frees a block.
    ///
    /// # Errors
    /// `BadName` or `NotLive`.
    pub fn heap_free(&mut self, pid: Pid, block: u8) -> Result<(), Refusal>
        requires least { 3 ≤ pid.0 }
        requires most { pid.0 ≤ 19 }
        ensures asked { ask (Call.HeapFree block) pid.0 self.old.contents ≡ (self.new.contents, reply_to result) }
        ensures refused { IfRefused (reply_to result) (self.new ≡ self.old) }
        ensures owners { last_owner self.new ≡ last_owner self.old }
    {
        if block > LAST_HEAP_BLOCK {
            return Err(Refusal::BadName);
        }
        if self.heap_len_of((pid, block)).is_none() {
            return Err(Refusal::NotLive);
        }
        self.heap.free(&mut self.arena, (pid, block));
        Ok(())
    }

    /// Writes bytes into a block, from offset `at` on.
    ///
    /// # Errors
    /// `BadName`, `NotLive` or `Range`.
    pub fn heap_write(&mut self, pid: Pid, block: u8, at: u32, bytes: &[u8]) -> Result<(), Refusal>
        requires least { 3 ≤ pid.0 }
        requires most { pid.0 ≤ 19 }
        requires few { length bytes.now ≤ 64 }
        ensures asked { ask (Call.HeapWrite block at (record { items = bytes.now })) pid.0 self.old.contents
            ≡ (self.new.contents, reply_to result) }
        ensures refused { IfRefused (reply_to result) (self.new ≡ self.old) }
        ensures owners { last_owner self.new ≡ last_owner self.old }
    {
        if block > LAST_HEAP_BLOCK {
            return Err(Refusal::BadName);
        }
        let Some(length) = self.heap_len_of((pid, block)) else {
            return Err(Refusal::NotLive);
        };
        if is_outside(at, bytes.len(), length as usize) {
            return Err(Refusal::Range);
        }
        self.heap.write(&mut self.arena, (pid, block), at, bytes);
        Ok(())
    }

    /// The `len` bytes of a block from offset `at` on.
    ///
    /// # Errors
    /// `BadName`, `NotLive`, or `Range`: also where `len` is above 64.
    pub fn heap_range(&self, pid: Pid, block: u8, at: u32, len: u8) -> Result<&[u8], Refusal>
        requires least { 3 ≤ pid.0 }
        requires most { pid.0 ≤ 19 }
        ensures read { IfOk result (λ bytes. ask (Call.HeapRead block at len) pid.0 self.now.contents
            ≡ (self.now.contents, Answer.Bytes (record { items = bytes.now }))) }
        ensures length { IfOk result (λ bytes. (length bytes.now ≡ len) × (len ≤ 64)) }
        ensures refused { IfErr result
            (λ r. ask (Call.HeapRead block at len) pid.0 self.now.contents ≡ (self.now.contents, Answer.Refused r)) }
    {
        if block > LAST_HEAP_BLOCK {
            return Err(Refusal::BadName);
        }
        if self.heap_len_of((pid, block)).is_none() {
            return Err(Refusal::NotLive);
        }
        let bytes = self.heap.bytes(&self.arena, (pid, block));
        if len > LONGEST_READ || is_outside(at, len as usize, bytes.len()) {
            return Err(Refusal::Range);
        }
        Ok(range_in(bytes, at, len))
    }

    /// The reply to a read.
    pub(crate) fn heap_read(&self, pid: Pid, block: u8, at: u32, len: u8) -> Reply
        requires least { 3 ≤ pid.0 }
        requires most { pid.0 ≤ 19 }
        ensures { ask (Call.HeapRead block at len) pid.0 self.now.contents ≡ (self.now.contents, result) }
    {
        match self.heap_range(pid, block, at, len) {
            Ok(bytes) => Reply::Bytes(chunk_of(bytes)),
            Err(refusal) => Reply::Refused(refusal),
        }
    }

    /// The state of the whole heap.
    pub fn heap_stats(&self) -> HeapStats
        ensures { result ≡ store.stats_of self.now.contents.heap }
    {
        self.heap.stats(&self.arena)
    }
}
