//! The two lists of a pool.

ghost use Rattle.std.specs.Prelude.{◌≡◌, ◌≢◌, ℕ, List, [], ◌∷◌, ◌≤◌, length, true, false, IfNone};
ghost use Rattle.memb_core.specs.Code.PoolBytes.{is_live};
ghost use Rattle.memb_core.specs.BlockLists.{has_number, without, head_of, tail_of, next_of, put_behind, added, pushed, inserted, popped, chopped};
ghost use Rattle.memb_core.specs.Code.Holders.{holder_of};
ghost use Rattle.memb_core.specs.declared.list_name.ListName.{ListName as Name};

use crate::list_name::ListName;
use crate::places::place_of;
use crate::pool::{MOST_BLOCKS, Pool};
use arena_core::Arena;
use arrayvec::ArrayVec;
use std::marker::Model;

/// Two lists of the blocks of one pool, linked through the blocks (`list.h` and `queue.h` of Contiki-NG). Two lists a pool
/// are this project's profile.
///
/// Each call that accesses bytes is passed the pool's arena and the pool, as the calls on both before left them. A block that
/// is in one of the lists is used, and is in neither list twice.
#[derive(Drop)]
pub struct Lists {
    first: Option<u8>,
    second: Option<u8>,
}

impl Model for Lists {
    ghost use Rattle.memb_core.specs.Code.PoolTable.{ListHeads};

    ghost Value = { ListHeads };

    ghost view = { λ l. record { first = l.first; second = l.second } };
}

impl Lists {
    ghost use Rattle.memb_core.specs.Code.PoolTable.{PoolTable};
    ghost use Rattle.memb_core.specs.Code.PoolBytes.{pool_of, IsWithin, KeepsToSpan};
    ghost use Rattle.memb_core.specs.Code.Links.{start_of, list_of, AreLinked, LeavesOthers};
    ghost use Rattle.memb_core.specs.Code.Changes.{with_start};

    /// Two lists without a block.
    pub fn new() -> Lists
        ensures linked { (pool : PoolTable) (bytes : List ℕ) → length pool.used ≤ 16 → IsWithin pool bytes → AreLinked result pool bytes }
        ensures empty { (pool : PoolTable) (bytes : List ℕ) (name : Name) → list_of name result pool bytes ≡ [] }
    {
        Lists {
            first: None,
            second: None,
        }
    }

    /// Moves a used block that is not in the other list to the end of a list (`list_add`, `queue_enqueue`).
    pub fn add(&mut self, arena: &mut Arena, pool: &Pool, name: ListName, b: u8)
        requires linked { AreLinked self.old pool.now arena.old.bytes }
        requires live { is_live b (pool_of pool.now arena.old.bytes) ≡ true }
        requires not_linked { (other : Name) → other ≢ name → has_number b (list_of other self.old pool.now arena.old.bytes) ≡ false }
        ensures list { list_of name self.new pool.now arena.new.bytes ≡ added b (list_of name self.old pool.now arena.old.bytes) }
        ensures others { LeavesOthers name pool.now self.old self.new arena.old.bytes arena.new.bytes }
        ensures rest { KeepsToSpan pool.now pool.now arena.old arena.new }
    {
        self.take_out(arena, pool, name, b);
        match self.tail(arena, pool, name) {
            Some(tail) => self.put_behind(arena, pool, name, tail, b),
            None => self.put_in_front(arena, pool, name, b),
        }
    }

    /// Moves a used block that is not in the other list to the front of a list (`list_push`).
    pub fn push(&mut self, arena: &mut Arena, pool: &Pool, name: ListName, b: u8)
        requires linked { AreLinked self.old pool.now arena.old.bytes }
        requires live { is_live b (pool_of pool.now arena.old.bytes) ≡ true }
        requires not_linked { (other : Name) → other ≢ name → has_number b (list_of other self.old pool.now arena.old.bytes) ≡ false }
        ensures list { list_of name self.new pool.now arena.new.bytes ≡ pushed b (list_of name self.old pool.now arena.old.bytes) }
        ensures others { LeavesOthers name pool.now self.old self.new arena.old.bytes arena.new.bytes }
        ensures rest { KeepsToSpan pool.now pool.now arena.old arena.new }
    {
        self.take_out(arena, pool, name, b);
        self.put_in_front(arena, pool, name, b);
    }

    /// Moves a used block that is not in the other list to directly after `prev`, which is another block of the list
    /// (`list_insert`).
    pub fn insert(&mut self, arena: &mut Arena, pool: &Pool, name: ListName, prev: u8, b: u8)
        requires linked { AreLinked self.old pool.now arena.old.bytes }
        requires live { is_live b (pool_of pool.now arena.old.bytes) ≡ true }
        requires not_linked { (other : Name) → other ≢ name → has_number b (list_of other self.old pool.now arena.old.bytes) ≡ false }
        requires listed { has_number prev (list_of name self.old pool.now arena.old.bytes) ≡ true }
        requires other { prev ≢ b }
        ensures list { list_of name self.new pool.now arena.new.bytes ≡ inserted prev b (list_of name self.old pool.now arena.old.bytes) }
        ensures others { LeavesOthers name pool.now self.old self.new arena.old.bytes arena.new.bytes }
        ensures rest { KeepsToSpan pool.now pool.now arena.old arena.new }
    {
        self.take_out(arena, pool, name, b);
        self.put_behind(arena, pool, name, prev, b);
    }

    /// Removes the head of a list (`list_pop`, `queue_dequeue`). `None` exactly where the list is empty.
    pub fn pop(&mut self, arena: &Arena, pool: &Pool, name: ListName) -> Option<u8>
        requires { AreLinked self.old pool.now arena.now.bytes }
        ensures head { result ≡ head_of (list_of name self.old pool.now arena.now.bytes) }
        ensures list { list_of name self.new pool.now arena.now.bytes ≡ popped (list_of name self.old pool.now arena.now.bytes) }
        ensures others { LeavesOthers name pool.now self.old self.new arena.now.bytes arena.now.bytes }
    {
        let head = self.head(name)?;
        let next = pool.link(arena, head);
        self.put_head(name, next);
        Some(head)
    }

    /// Removes the tail of a list (`list_chop`). `None` exactly where the list is empty; then nothing changes.
    pub fn chop(&mut self, arena: &mut Arena, pool: &Pool, name: ListName) -> Option<u8>
        requires { AreLinked self.old pool.now arena.old.bytes }
        ensures tail { result ≡ tail_of (list_of name self.old pool.now arena.old.bytes) }
        ensures unchanged { IfNone result ((self.new ≡ self.old) × (arena.new ≡ arena.old)) }
        ensures list { list_of name self.new pool.now arena.new.bytes ≡ chopped (list_of name self.old pool.now arena.old.bytes) }
        ensures others { LeavesOthers name pool.now self.old self.new arena.old.bytes arena.new.bytes }
        ensures rest { KeepsToSpan pool.now pool.now arena.old arena.new }
    {
        let tail = self.tail(arena, pool, name)?;
        self.take_out(arena, pool, name, tail);
        Some(tail)
    }

    /// Removes a block from the list that it is in (`list_remove`).
    pub fn remove(&mut self, arena: &mut Arena, pool: &Pool, name: ListName, b: u8)
        requires linked { AreLinked self.old pool.now arena.old.bytes }
        requires listed { has_number b (list_of name self.old pool.now arena.old.bytes) ≡ true }
        ensures list { list_of name self.new pool.now arena.new.bytes ≡ without b (list_of name self.old pool.now arena.old.bytes) }
        ensures others { LeavesOthers name pool.now self.old self.new arena.old.bytes arena.new.bytes }
        ensures rest { KeepsToSpan pool.now pool.now arena.old arena.new }
    {
        self.take_out(arena, pool, name, b);
    }

    /// The head of a list (`list_head`). `None` exactly where the list is empty.
    pub fn head(&self, name: ListName) -> Option<u8>
        ensures start { result ≡ start_of name self.now }
        ensures head { (pool : PoolTable) (bytes : List ℕ) → AreLinked self.now pool bytes
            → result ≡ head_of (list_of name self.now pool bytes) }
    {
        match name {
            ListName::First => self.first,
            ListName::Second => self.second,
        }
    }

    /// The block after a block of a list (`list_item_next`). `None` exactly where that is the tail.
    pub fn next(&self, arena: &Arena, pool: &Pool, name: ListName, b: u8) -> Option<u8>
        requires linked { AreLinked self.now pool.now arena.now.bytes }
        requires listed { has_number b (list_of name self.now pool.now arena.now.bytes) ≡ true }
        ensures { result ≡ next_of b (list_of name self.now pool.now arena.now.bytes) }
    {
        // Only the conditions show which list it is: a block is in no other one.
        let _ = name;
        pool.link(arena, b)
    }

    /// The number of blocks in a list (`list_length`), at most 16.
    pub fn length(&self, arena: &Arena, pool: &Pool, name: ListName) -> u8
        requires { AreLinked self.now pool.now arena.now.bytes }
        ensures { result ≡ length (list_of name self.now pool.now arena.now.bytes) }
    {
        self.numbers(arena, pool, name).len() as u8
    }

    /// The list that a block is in, if it is in one.
    pub fn list_of(&self, arena: &Arena, pool: &Pool, b: u8) -> Option<ListName>
        requires { AreLinked self.now pool.now arena.now.bytes }
        ensures { result ≡ holder_of b (list_of Name.First self.now pool.now arena.now.bytes)
            (list_of Name.Second self.now pool.now arena.now.bytes) }
    {
        if self.numbers(arena, pool, ListName::First).contains(&b) {
            Some(ListName::First)
        } else if self.numbers(arena, pool, ListName::Second).contains(&b) {
            Some(ListName::Second)
        } else {
            None
        }
    }

    /// The numbers of a list, read along the links. A call that looks for a block, for the one before it or for the tail
    /// follows the links once, and then has at most 16 numbers to look at.
    fn numbers(&self, arena: &Arena, pool: &Pool, name: ListName) -> ArrayVec<u8, MOST_BLOCKS>
        requires { AreLinked self.now pool.now arena.now.bytes }
        ensures { result.items ≡ list_of name self.now pool.now arena.now.bytes }
    {
        let mut numbers = ArrayVec::new();
        let mut link = self.head(name);
        while let Some(b) = link {
            numbers.push(b);
            link = pool.link(arena, b);
        }
        numbers
    }

    /// The tail of a list.
    fn tail(&self, arena: &Arena, pool: &Pool, name: ListName) -> Option<u8>
        requires { AreLinked self.now pool.now arena.now.bytes }
        ensures { result ≡ tail_of (list_of name self.now pool.now arena.now.bytes) }
    {
        self.numbers(arena, pool, name).last().copied()
    }

    /// Removes a block from a list, if it is there.
    fn take_out(&mut self, arena: &mut Arena, pool: &Pool, name: ListName, b: u8)
        requires { AreLinked self.old pool.now arena.old.bytes }
        ensures list { list_of name self.new pool.now arena.new.bytes ≡ without b (list_of name self.old pool.now arena.old.bytes) }
        ensures others { LeavesOthers name pool.now self.old self.new arena.old.bytes arena.new.bytes }
        ensures rest { KeepsToSpan pool.now pool.now arena.old arena.new }
    {
        let numbers = self.numbers(arena, pool, name);
        let Some(place) = place_of(&numbers, b) else {
            return;
        };
        let next = pool.link(arena, b);
        if place == 0 {
            self.put_head(name, next);
        } else {
            pool.put_link(arena, numbers[place - 1], next);
        }
    }

    /// Puts a block that is in no list directly after one of a list.
    fn put_behind(&self, arena: &mut Arena, pool: &Pool, name: ListName, prev: u8, b: u8)
        requires linked { AreLinked self.now pool.now arena.old.bytes }
        requires live { is_live b (pool_of pool.now arena.old.bytes) ≡ true }
        requires not_linked { (other : Name) → has_number b (list_of other self.now pool.now arena.old.bytes) ≡ false }
        requires listed { has_number prev (list_of name self.now pool.now arena.old.bytes) ≡ true }
        ensures list { list_of name self.now pool.now arena.new.bytes ≡ put_behind prev b (list_of name self.now pool.now arena.old.bytes) }
        ensures others { LeavesOthers name pool.now self.now self.now arena.old.bytes arena.new.bytes }
        ensures rest { KeepsToSpan pool.now pool.now arena.old arena.new }
    {
        let next = pool.link(arena, prev);
        pool.put_link(arena, b, next);
        pool.put_link(arena, prev, Some(b));
    }

    /// Puts a block that is in no list at the front of a list.
    fn put_in_front(&mut self, arena: &mut Arena, pool: &Pool, name: ListName, b: u8)
        requires linked { AreLinked self.old pool.now arena.old.bytes }
        requires live { is_live b (pool_of pool.now arena.old.bytes) ≡ true }
        requires not_linked { (other : Name) → has_number b (list_of other self.old pool.now arena.old.bytes) ≡ false }
        ensures list { list_of name self.new pool.now arena.new.bytes ≡ b ∷ list_of name self.old pool.now arena.old.bytes }
        ensures others { LeavesOthers name pool.now self.old self.new arena.old.bytes arena.new.bytes }
        ensures rest { KeepsToSpan pool.now pool.now arena.old arena.new }
    {
        pool.put_link(arena, b, self.head(name));
        self.put_head(name, Some(b));
    }

    /// Keeps another head for a list.
    fn put_head(&mut self, name: ListName, head: Option<u8>)
        ensures { self.new ≡ with_start name head self.old }
    {
        match name {
            ListName::First => self.first = head,
            ListName::Second => self.second = head,
        }
    }
}
