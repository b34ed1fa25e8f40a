//! The calls on a pool's blocks, each with its refusals. A call that is refused changes nothing.

ghost use Rattle.std.specs.Prelude.{◌≡◌};
ghost use Rattle.memb_core.specs.Code.Links.{AreLinked};
ghost use Rattle.memb_core.specs.Code.PoolBytes.{KeepsToSpan};
ghost use Rattle.node_memory.specs.Code.Conditions.{IfRefused};
ghost use Rattle.node_memory.specs.Code.Placed.{seen};
ghost use Rattle.node_memory.specs.PoolCalls as calls;

use crate::listed_pool::ListedPool;
use crate::ranges::{LONGEST_READ, chunk_of, is_outside, range_in};
use arena_core::Arena;
use mote_types::refusal::Refusal;
use mote_types::reply::{Chunk, Reply};

/// The last block of each pool.
pub const LAST_BLOCK: u8 = 15;

#[tactic(auto, using(crate::proofs::LaidOut::pool_calls))]
impl ListedPool {
    /// Allocates the unused block of lowest number.
    pub fn alloc(&mut self, arena: &mut Arena) -> Reply
        requires { AreLinked self.old.lists self.old.pool arena.old.bytes }
        ensures asked { calls.alloc (seen self.old arena.old.bytes) ≡ (seen self.new arena.new.bytes, result) }
        ensures refused { IfRefused result ((self.new ≡ self.old) × (arena.new ≡ arena.old)) }
        ensures linked { AreLinked self.new.lists self.new.pool arena.new.bytes }
        ensures rest { KeepsToSpan self.old.pool self.new.pool arena.old arena.new }
    {
        match self.pool.alloc(arena) {
            Some(block) => Reply::Num(u32::from(block)),
            None => Reply::Refused(Refusal::NoBlock),
        }
    }

    /// Frees a block.
    pub fn free(&mut self, arena: &mut Arena, block: u8) -> Reply
        requires { AreLinked self.old.lists self.old.pool arena.old.bytes }
        ensures asked { calls.free block (seen self.old arena.old.bytes) ≡ (seen self.new arena.new.bytes, result) }
        ensures refused { IfRefused result ((self.new ≡ self.old) × (arena.new ≡ arena.old)) }
        ensures linked { AreLinked self.new.lists self.new.pool arena.new.bytes }
        ensures rest { KeepsToSpan self.old.pool self.new.pool arena.old arena.new }
    {
        if let Some(refusal) = self.free_refusal(arena, block) {
            return Reply::Refused(refusal);
        }
        self.pool.free(arena, &self.lists, block);
        Reply::Done
    }

    /// Why a block may not be freed, if it may not.
    fn free_refusal(&self, arena: &Arena, block: u8) -> Option<Refusal>
        requires { AreLinked self.now.lists self.now.pool arena.now.bytes }
        ensures { result ≡ calls.free_refusal block (seen self.now arena.now.bytes) }
    {
        if block > LAST_BLOCK {
            return Some(Refusal::BadName);
        }
        if !self.pool.is_live(block) {
            return Some(Refusal::NotLive);
        }
        if self.lists.list_of(arena, &self.pool, block).is_some() {
            return Some(Refusal::Linked);
        }
        None
    }

    /// Writes over the usable bytes of a block, from offset `at` on.
    pub fn write(&mut self, arena: &mut Arena, block: u8, at: u32, chunk: &Chunk) -> Reply
        requires { AreLinked self.old.lists self.old.pool arena.old.bytes }
        ensures asked { calls.write block at chunk.now.items (seen self.old arena.old.bytes) ≡ (seen self.new arena.new.bytes, result) }
        ensures refused { IfRefused result ((self.new ≡ self.old) × (arena.new ≡ arena.old)) }
        ensures linked { AreLinked self.new.lists self.new.pool arena.new.bytes }
        ensures rest { KeepsToSpan self.old.pool self.new.pool arena.old arena.new }
    {
        if block > LAST_BLOCK {
            return Reply::Refused(Refusal::BadName);
        }
        if !self.pool.is_live(block) {
            return Reply::Refused(Refusal::NotLive);
        }
        let length = self.pool.bytes(arena, block).len();
        if is_outside(at, chunk.len(), length) {
            return Reply::Refused(Refusal::Range);
        }
        self.pool.write(arena, block, at, chunk.as_slice());
        Reply::Done
    }

    /// Reads `len` of the usable bytes of a block, from offset `at` on.
    pub fn read(&self, arena: &Arena, block: u8, at: u32, len: u8) -> Reply
        requires { AreLinked self.now.lists self.now.pool arena.now.bytes }
        ensures { calls.read block at len (seen self.now arena.now.bytes) ≡ (seen self.now arena.now.bytes, result) }
    {
        if block > LAST_BLOCK {
            return Reply::Refused(Refusal::BadName);
        }
        if !self.pool.is_live(block) {
            return Reply::Refused(Refusal::NotLive);
        }
        let bytes = self.pool.bytes(arena, block);
        if len > LONGEST_READ || is_outside(at, len as usize, bytes.len()) {
            return Reply::Refused(Refusal::Range);
        }
        Reply::Bytes(chunk_of(range_in(bytes, at, len)))
    }
}
