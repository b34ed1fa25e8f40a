//! The calls on a pool's lists, each with its refusals. A call that is refused changes nothing.

ghost use Rattle.std.specs.Prelude.{◌≡◌};
ghost use Rattle.memb_core.specs.Code.Links.{AreLinked};
ghost use Rattle.memb_core.specs.Code.PoolBytes.{KeepsToSpan};
ghost use Rattle.node_memory.specs.Code.Conditions.{IfRefused};
ghost use Rattle.node_memory.specs.ListedPools as pools;
ghost use Rattle.node_memory.specs.Code.Placed.{seen};
ghost use Rattle.node_memory.specs.PoolCalls as calls;

use crate::block_calls::LAST_BLOCK;
use crate::listed_pool::{ListedPool, list_named, other_list};
use arena_core::Arena;
use memb_core::ListName;
use mote_types::refusal::Refusal;
use mote_types::reply::Reply;

#[tactic(auto, using(crate::proofs::LaidOut::pool_calls))]
impl ListedPool {
    /// Why a block may not go into a list, if it may not.
    fn link_refusal(&self, arena: &Arena, list: ListName, block: u8) -> Option<Refusal>
        requires { AreLinked self.now.lists self.now.pool arena.now.bytes }
        ensures { result ≡ calls.link_refusal list block (seen self.now arena.now.bytes) }
    {
        if block > LAST_BLOCK {
            return Some(Refusal::BadName);
        }
        if !self.pool.is_live(block) {
            return Some(Refusal::NotLive);
        }
        if self.is_in(arena, other_list(list), block) {
            return Some(Refusal::Linked);
        }
        None
    }

    /// Moves a block to the end of a list.
    pub fn add(&mut self, arena: &mut Arena, list: u8, block: u8) -> Reply
        requires { AreLinked self.old.lists self.old.pool arena.old.bytes }
        ensures asked { calls.add block (pools.list_named list) (seen self.old arena.old.bytes) ≡ (seen self.new arena.new.bytes, result) }
        ensures refused { IfRefused result ((self.new ≡ self.old) × (arena.new ≡ arena.old)) }
        ensures linked { AreLinked self.new.lists self.new.pool arena.new.bytes }
        ensures rest { KeepsToSpan self.old.pool self.new.pool arena.old arena.new }
    {
        let list = list_named(list);
        if let Some(refusal) = self.link_refusal(arena, list, block) {
            return Reply::Refused(refusal);
        }
        self.lists.add(arena, &self.pool, list, block);
        Reply::Done
    }

    /// Moves a block to the front of a list.
    pub fn push(&mut self, arena: &mut Arena, list: u8, block: u8) -> Reply
        requires { AreLinked self.old.lists self.old.pool arena.old.bytes }
        ensures asked { calls.push block (pools.list_named list) (seen self.old arena.old.bytes) ≡ (seen self.new arena.new.bytes, result) }
        ensures refused { IfRefused result ((self.new ≡ self.old) × (arena.new ≡ arena.old)) }
        ensures linked { AreLinked self.new.lists self.new.pool arena.new.bytes }
        ensures rest { KeepsToSpan self.old.pool self.new.pool arena.old arena.new }
    {
        let list = list_named(list);
        if let Some(refusal) = self.link_refusal(arena, list, block) {
            return Reply::Refused(refusal);
        }
        self.lists.push(arena, &self.pool, list, block);
        Reply::Done
    }

    /// Moves a block to directly after another one of a list.
    pub fn insert(&mut self, arena: &mut Arena, list: u8, prev: u8, block: u8) -> Reply
        requires { AreLinked self.old.lists self.old.pool arena.old.bytes }
        ensures asked { calls.insert prev block (pools.list_named list) (seen self.old arena.old.bytes)
            ≡ (seen self.new arena.new.bytes, result) }
        ensures refused { IfRefused result ((self.new ≡ self.old) × (arena.new ≡ arena.old)) }
        ensures linked { AreLinked self.new.lists self.new.pool arena.new.bytes }
        ensures rest { KeepsToSpan self.old.pool self.new.pool arena.old arena.new }
    {
        let list = list_named(list);
        if prev > LAST_BLOCK {
            return Reply::Refused(Refusal::BadName);
        }
        if let Some(refusal) = self.link_refusal(arena, list, block) {
            return Reply::Refused(refusal);
        }
        if prev == block || !self.is_in(arena, list, prev) {
            return Reply::Refused(Refusal::NotLinked);
        }
        self.lists.insert(arena, &self.pool, list, prev, block);
        Reply::Done
    }

    /// Removes the head of a list.
    pub fn pop(&mut self, arena: &mut Arena, list: u8) -> Reply
        requires { AreLinked self.old.lists self.old.pool arena.old.bytes }
        ensures asked { calls.pop (pools.list_named list) (seen self.old arena.old.bytes) ≡ (seen self.new arena.new.bytes, result) }
        ensures refused { IfRefused result ((self.new ≡ self.old) × (arena.new ≡ arena.old)) }
        ensures linked { AreLinked self.new.lists self.new.pool arena.new.bytes }
        ensures rest { KeepsToSpan self.old.pool self.new.pool arena.old arena.new }
    {
        let list = list_named(list);
        let Some(head) = self.lists.head(list) else {
            return Reply::Refused(Refusal::Empty);
        };
        self.lists.pop(arena, &self.pool, list);
        Reply::Num(u32::from(head))
    }

    /// Removes the tail of a list.
    pub fn chop(&mut self, arena: &mut Arena, list: u8) -> Reply
        requires { AreLinked self.old.lists self.old.pool arena.old.bytes }
        ensures asked { calls.chop (pools.list_named list) (seen self.old arena.old.bytes) ≡ (seen self.new arena.new.bytes, result) }
        ensures refused { IfRefused result ((self.new ≡ self.old) × (arena.new ≡ arena.old)) }
        ensures linked { AreLinked self.new.lists self.new.pool arena.new.bytes }
        ensures rest { KeepsToSpan self.old.pool self.new.pool arena.old arena.new }
    {
        let list = list_named(list);
        match self.lists.chop(arena, &self.pool, list) {
            Some(tail) => Reply::Num(u32::from(tail)),
            None => Reply::Refused(Refusal::Empty),
        }
    }

    /// Removes a block from a list.
    pub fn remove(&mut self, arena: &mut Arena, list: u8, block: u8) -> Reply
        requires { AreLinked self.old.lists self.old.pool arena.old.bytes }
        ensures asked { calls.remove block (pools.list_named list) (seen self.old arena.old.bytes)
            ≡ (seen self.new arena.new.bytes, result) }
        ensures refused { IfRefused result ((self.new ≡ self.old) × (arena.new ≡ arena.old)) }
        ensures linked { AreLinked self.new.lists self.new.pool arena.new.bytes }
        ensures rest { KeepsToSpan self.old.pool self.new.pool arena.old arena.new }
    {
        let list = list_named(list);
        if block > LAST_BLOCK {
            return Reply::Refused(Refusal::BadName);
        }
        if !self.is_in(arena, list, block) {
            return Reply::Refused(Refusal::NotLinked);
        }
        self.lists.remove(arena, &self.pool, list, block);
        Reply::Done
    }

    /// Returns the head of a list.
    pub fn head(&self, arena: &Arena, list: u8) -> Reply
        requires { AreLinked self.now.lists self.now.pool arena.now.bytes }
        ensures { calls.head (pools.list_named list) (seen self.now arena.now.bytes) ≡ (seen self.now arena.now.bytes, result) }
    {
        let list = list_named(list);
        match self.lists.head(list) {
            Some(block) => Reply::Num(u32::from(block)),
            None => Reply::Refused(Refusal::Empty),
        }
    }

    /// Returns the block after another one of a list.
    pub fn next(&self, arena: &Arena, list: u8, block: u8) -> Reply
        requires { AreLinked self.now.lists self.now.pool arena.now.bytes }
        ensures { calls.next block (pools.list_named list) (seen self.now arena.now.bytes) ≡ (seen self.now arena.now.bytes, result) }
    {
        let list = list_named(list);
        if block > LAST_BLOCK {
            return Reply::Refused(Refusal::BadName);
        }
        if !self.is_in(arena, list, block) {
            return Reply::Refused(Refusal::NotLinked);
        }
        match self.lists.next(arena, &self.pool, list, block) {
            Some(block) => Reply::Num(u32::from(block)),
            None => Reply::Refused(Refusal::Empty),
        }
    }

    /// Returns the number of blocks in a list.
    pub fn length(&self, arena: &Arena, list: u8) -> Reply
        requires { AreLinked self.now.lists self.now.pool arena.now.bytes }
        ensures { calls.count (pools.list_named list) (seen self.now arena.now.bytes) ≡ (seen self.now arena.now.bytes, result) }
    {
        let list = list_named(list);
        Reply::Num(u32::from(self.lists.length(arena, &self.pool, list)))
    }
}
