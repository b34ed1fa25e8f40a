//! The pool, and the calls on its blocks.

ghost use Rattle.std.specs.Prelude.{◌≡◌, ◌≢◌, ℕ, List, ◌+◌, ◌*◌, ◌≤◌, ◌<◌, length, not, true, false, IfNone, IfSome, IsSomeAnd, Some};
ghost use Rattle.std.specs.List.{position};
ghost use Rattle.memb_core.specs.BlockPool.{unused_pool, block_of, first_unused, unused_count, allocated, freed, with_bytes};

use crate::link::{block_named, word_of};
use crate::lists::Lists;
use crate::places::{count_unset, first_unset};
use arena_core::{Arena, Span};
use arrayvec::ArrayVec;
use std::marker::Model;

/// The most blocks that a pool has (this project's profile).
pub(crate) const MOST_BLOCKS: usize = 16;

/// The length of a block's link.
const LINK_LEN: u32 = 4;

/// A pool of blocks over a span of an arena, numbered from 0 on (`memb.h` of Contiki-NG).
///
/// Each call that accesses bytes is passed that arena, with the span's bytes as the calls before left them.
#[derive(Drop)]
pub struct Pool {
    span: Span,
    usable: u32,
    used: ArrayVec<bool, MOST_BLOCKS>,
}

impl Model for Pool {
    ghost use Rattle.memb_core.specs.Code.PoolTable.{PoolTable};
    ghost use Rattle.memb_core.specs.Code.Sizes.{FillsSpan};

    ghost Value = { PoolTable };

    ghost view = { λ p. record { span = p.span; usable = p.usable; used = p.used.items } };

    ghost invariant = { λ p. FillsSpan (record { span = p.span; usable = p.usable; used = p.used.items }) };
}

impl Pool {
    ghost use Rattle.memb_core.specs.Code.PoolTable.{ListHeads};
    ghost use Rattle.memb_core.specs.Code.Changes.{with_used};
    ghost use Rattle.memb_core.specs.declared.list_name.ListName.{ListName as Name};
    ghost use Rattle.memb_core.specs.BlockLists.{has_number};
    ghost use Rattle.memb_core.specs.Code.PoolBytes.{is_live, place_of, pool_of, IsWithin, KeepsToSpan};
    ghost use Rattle.memb_core.specs.Code.Separation.{BlocksLieApart};
    ghost use Rattle.memb_core.specs.Code.Sizes.{FillsSpan};
    ghost use Rattle.memb_core.specs.Code.Links.{link_of, list_of, AreLinked, KeepsLists};

    /// A pool over a span, none of whose blocks is used. There are at most 16 blocks, and each takes 4 bytes more than its
    /// usable ones.
    pub fn new(span: Span, blocks: u8, usable: u32) -> Pool
        requires few { blocks ≤ 16 }
        requires size { span.len ≡ blocks * (usable + 4) }
        ensures span { result.span ≡ span }
        ensures count { length result.used ≡ blocks }
        ensures unused { (bytes : List ℕ) → pool_of result bytes ≡ unused_pool blocks usable }
    {
        let mut used = ArrayVec::from([false; MOST_BLOCKS]);
        used.truncate(blocks as usize);
        Pool { span, usable, used }
    }

    /// Allocates the unused block of lowest number, its usable bytes all 0 (`memb_alloc`). `None` exactly where every
    /// block is used; then nothing changes.
    pub fn alloc(&mut self, arena: &mut Arena) -> Option<u8>
        requires { IsWithin self.old arena.old.bytes }
        ensures number { result ≡ first_unused (pool_of self.old arena.old.bytes) }
        ensures unchanged { IfNone result ((self.new ≡ self.old) × (arena.new ≡ arena.old)) }
        ensures block { IfSome result (λ b. pool_of self.new arena.new.bytes ≡ allocated b (pool_of self.old arena.old.bytes)) }
        ensures lists { KeepsLists self.old self.new arena.old.bytes arena.new.bytes }
        ensures in_no_list { IfSome result (λ b. (lists : ListHeads) (name : Name) → AreLinked lists self.old arena.old.bytes
            → has_number b (list_of name lists self.new arena.new.bytes) ≡ false) }
        ensures rest { KeepsToSpan self.old self.new arena.old arena.new }
    {
        let b = self.first_unused()?;
        arena.fill(self.usable_span(b), 0);
        self.put_used(b, true);
        Some(b)
    }

    /// Frees a used block that is in no list (`memb_free`).
    pub fn free(&mut self, arena: &Arena, lists: &Lists, b: u8)
        requires linked { AreLinked lists.now self.old arena.now.bytes }
        requires live { is_live b (pool_of self.old arena.now.bytes) ≡ true }
        requires in_no_list { (name : Name) → has_number b (list_of name lists.now self.old arena.now.bytes) ≡ false }
        ensures block { pool_of self.new arena.now.bytes ≡ freed b (pool_of self.old arena.now.bytes) }
        ensures linked { AreLinked lists.now self.new arena.now.bytes }
        ensures lists { (name : Name) → list_of name lists.now self.new arena.now.bytes ≡ list_of name lists.now self.old arena.now.bytes }
        ensures rest { KeepsToSpan self.old self.new arena.now arena.now }
    {
        // Only the conditions mention the two.
        let _ = arena;
        let _ = lists;
        self.put_used(b, false);
    }

    /// The usable bytes of a used block.
    pub fn bytes<'a>(&self, arena: &'a Arena, b: u8) -> &'a [u8]
        requires within { IsWithin self.now arena.now.bytes }
        requires live { is_live b (pool_of self.now arena.now.bytes) ≡ true }
        ensures { block_of b (pool_of self.now arena.now.bytes) ≡ Some result.now }
    {
        arena.bytes(self.usable_span(b))
    }

    /// Writes over the usable bytes of a used block, from offset `at` on.
    pub fn write(&self, arena: &mut Arena, b: u8, at: u32, bytes: &[u8])
        requires within { IsWithin self.now arena.old.bytes }
        requires range { IsSomeAnd (block_of b (pool_of self.now arena.old.bytes)) (λ block. at + length bytes.now ≤ length block) }
        ensures block { pool_of self.now arena.new.bytes ≡ with_bytes b at bytes.now (pool_of self.now arena.old.bytes) }
        ensures lists { KeepsLists self.now self.now arena.old.bytes arena.new.bytes }
        ensures rest { KeepsToSpan self.now self.now arena.old arena.new }
    {
        let block = self.usable_span(b);
        let target = arena.bytes_mut(Span {
            at: block.at + at,
            len: bytes.len() as u32,
        });
        target.copy_from_slice(bytes);
    }

    /// The number of unused blocks (`memb_numfree`).
    pub fn num_free(&self) -> u8
        ensures { (bytes : List ℕ) → result ≡ unused_count (pool_of self.now bytes) }
    {
        count_unset(&self.used) as u8
    }

    /// Whether a block is used. A number that no block has is not used.
    pub fn is_live(&self, b: u8) -> bool
        ensures { (bytes : List ℕ) → result ≡ is_live b (pool_of self.now bytes) }
    {
        self.used.get(b as usize).copied().unwrap_or(false)
    }

    /// No two blocks share a byte of the arena, links included, and each used one's bytes are read from the part that it takes.
    pub fn blocks_lie_apart(&self)
        ensures { (bytes : List ℕ) → IsWithin self.now bytes → BlocksLieApart self.now bytes }
    {
        // Does nothing: the clause states what holds of the pool after any calls.
        let _span = &self.span;
    }

    /// The block that the link of block `b` names.
    pub(crate) fn link(&self, arena: &Arena, b: u8) -> Option<u8>
        requires within { IsWithin self.now arena.now.bytes }
        requires block { b < length self.now.used }
        requires number { IfSome (link_of self.now arena.now.bytes b) (λ next. next < 256) }
        ensures { result ≡ link_of self.now arena.now.bytes b }
    {
        block_named(arena.word(self.start(b)))
    }

    /// Sets the link of block `b`.
    pub(crate) fn put_link(&self, arena: &mut Arena, b: u8, next: Option<u8>)
        requires within { IsWithin self.now arena.old.bytes }
        requires block { b < length self.now.used }
        ensures link { link_of self.now arena.new.bytes b ≡ next }
        ensures others { (c : ℕ) → c ≢ b → link_of self.now arena.new.bytes c ≡ link_of self.now arena.old.bytes c }
        ensures blocks { pool_of self.now arena.new.bytes ≡ pool_of self.now arena.old.bytes }
        ensures rest { KeepsToSpan self.now self.now arena.old arena.new }
    {
        arena.put_word(self.start(b), word_of(next));
    }

    /// The unused block of lowest number.
    fn first_unused(&self) -> Option<u8>
        ensures number { result ≡ position not self.now.used }
        ensures fills { FillsSpan self.now }
    {
        let place = first_unset(&self.used)?;
        Some(place as u8)
    }

    /// Keeps of block `b` whether it is used.
    fn put_used(&mut self, b: u8, used: bool)
        requires { b < length self.old.used }
        ensures { self.new ≡ with_used b used self.old }
    {
        self.used[b as usize] = used;
    }

    /// Where block `b` begins in the arena.
    fn start(&self, b: u8) -> u32
        requires { b < length self.now.used }
        ensures start { result ≡ self.now.span.at + place_of self.now b }
        ensures inside { result + self.now.usable + 4 ≤ self.now.span.at + self.now.span.len }
        ensures fills { FillsSpan self.now }
    {
        self.span.at + b as u32 * (self.usable + LINK_LEN)
    }

    /// The usable bytes of block `b`.
    fn usable_span(&self, b: u8) -> Span
        requires { b < length self.now.used }
        ensures at { result.at ≡ self.now.span.at + (place_of self.now b + 4) }
        ensures len { result.len ≡ self.now.usable }
        ensures inside { result.at + result.len ≤ self.now.span.at + self.now.span.len }
        ensures fills { FillsSpan self.now }
    {
        Span {
            at: self.start(b) + LINK_LEN,
            len: self.usable,
        }
    }
}
