//! The arena: the block, and how much of it is handed out.

ghost use Rattle.std.specs.Prelude.{◌≡◌, ℕ, List, ◌+◌, ◌≤◌, ◌⊎◌, ◌<◌, ◌^◌, length, slice_range, replicate, IfOk, IfSome, IfNone, OnSome};
ghost use Rattle.std.specs.Borrow.{sem};
ghost use Rattle.std.specs.Int.{to_le_bytes, from_le_bytes};
ghost use Rattle.arena_core.specs.Code.Contents.{contents};
ghost use Rattle.arena_core.specs.Code.Written.{written};
ghost use mir.Syntax.{w32};

use crate::block::Block;
use crate::bytes::{fill_bytes, put_bytes, slide_bytes, word_of};
use crate::span::Span;
use std::alloc::{AllocError, Global};
use std::marker::Model;
use std::slice;

/// One block of memory that contracts see as a list of bytes. A prefix of it is handed out.
///
/// The bytes keep their address and number until the arena is dropped; then the block is freed. That all memory of the
/// mote is in one block is this project's profile (Contiki-NG has a static array for each pool and heap).
pub struct Arena {
    block: Block,
    alloc: Global,
    size: u32,
    carved: u32,
}

impl Model for Arena {
    ghost use Rattle.std.specs.Prelude.{◌≡◌, ◌≤◌, length};
    ghost use Rattle.arena_core.specs.Code.Contents.{Contents, contents};

    ghost Value = { Contents };

    ghost view = { λ a. contents a.block.bytes a.carved };

    ghost invariant = { λ a. (a.size ≡ length a.block.bytes) × (a.carved ≤ a.size) };
}

impl Arena {
    ghost use Rattle.arena_core.specs.Code.ArenaLending.{lends_bytes, lends_pair};

    /// An arena of `size` bytes, all 0, of which none is handed out.
    ///
    /// # Errors
    /// `AllocError` where the allocator has no such block.
    pub fn new(alloc: Global, size: u32) -> Result<Arena, AllocError>
        requires { 1 ≤ size }
        ensures { IfOk result (λ arena. arena ≡ contents (replicate size 0) 0) }
    {
        let block = Block::new(&alloc, size as usize)?;
        Ok(Arena {
            block,
            alloc,
            size,
            carved: 0,
        })
    }

    /// Hands out the next `len` bytes. `None` only where fewer are left.
    pub fn carve(&mut self, len: u32) -> Option<Span>
        ensures next { IfSome result (λ span. (span.at ≡ self.old.carved) × (span.len ≡ len)) }
        ensures within { IfSome result (λ span. span.at + span.len ≤ length self.old.bytes) }
        ensures handed_out { OnSome result (self.new ≡ contents self.old.bytes (self.old.carved + len)) }
        ensures too_short { IfNone result (length self.old.bytes < self.old.carved + len) }
        ensures unchanged { IfNone result (self.new ≡ self.old) }
    {
        if self.size - self.carved < len {
            return None;
        }
        let at = self.carved;
        self.carved += len;
        Some(Span { at, len })
    }

    /// The bytes of a range.
    pub fn bytes(&self, span: Span) -> &[u8]
        requires { span.at + span.len ≤ length self.now.bytes }
        ensures { result.now ≡ slice_range self.now.bytes span.at (span.at + span.len) }
    {
        self.block.bytes(span.at as usize, span.len as usize)
    }

    /// Lends a range for writing. Once that ends, the range has what was last written, and no other byte changed.
    pub fn bytes_mut(&mut self, span: Span) -> &mut [u8]
        requires { span.at + span.len ≤ length self.old.bytes }
        ensures* writes_back { sem 𝓛 (lends_bytes self.entry span.at result) }
        ensures value { result.now ≡ slice_range self.old.bytes span.at (span.at + span.len) }
    {
        self.block.bytes_mut(span.at as usize, span.len as usize)
    }

    /// Lends two ranges that do not meet, for writing at once. Once that ends, each has what was last written, and no other
    /// byte changed.
    pub fn pair_mut(&mut self, a: Span, b: Span) -> (&mut [u8], &mut [u8])
        requires first { a.at + a.len ≤ length self.old.bytes }
        requires second { b.at + b.len ≤ length self.old.bytes }
        requires disjoint { (a.at + a.len ≤ b.at) ⊎ (b.at + b.len ≤ a.at) }
        ensures* writes_back { sem 𝓛 (lends_pair self.entry a.at b.at result) }
        ensures first { result.0.now ≡ slice_range self.old.bytes a.at (a.at + a.len) }
        ensures second { result.1.now ≡ slice_range self.old.bytes b.at (b.at + b.len) }
    {
        unsafe {
            (
                slice::from_raw_parts_mut(self.block.ptr.add(a.at as usize), a.len as usize),
                slice::from_raw_parts_mut(self.block.ptr.add(b.at as usize), b.len as usize),
            )
        }
    }

    /// Writes one byte over a whole range.
    pub fn fill(&mut self, span: Span, byte: u8)
        requires { span.at + span.len ≤ length self.old.bytes }
        ensures bytes { self.new ≡ contents (written self.old.bytes span.at (replicate span.len byte)) self.old.carved }
        ensures size { length self.new.bytes ≡ length self.old.bytes }
    {
        fill_bytes(self.bytes_mut(span), byte);
    }

    /// Moves `len` bytes from `source` to `target`. The two ranges may overlap: the target then has what the source had.
    pub fn slide(&mut self, source: u32, target: u32, len: u32)
        requires source { source + len ≤ length self.old.bytes }
        requires target { target + len ≤ length self.old.bytes }
        ensures bytes { self.new ≡ contents (written self.old.bytes target (slice_range self.old.bytes source (source + len)))
            self.old.carved }
        ensures size { length self.new.bytes ≡ length self.old.bytes }
    {
        let size = self.size as usize;
        slide_bytes(
            self.block.bytes_mut(0, size),
            source as usize,
            target as usize,
            len as usize,
        );
    }

    /// Copies `len` bytes from `source` to `target`. The two ranges do not meet.
    pub fn copy(&mut self, source: u32, target: u32, len: u32)
        requires source { source + len ≤ length self.old.bytes }
        requires target { target + len ≤ length self.old.bytes }
        requires disjoint { (source + len ≤ target) ⊎ (target + len ≤ source) }
        ensures bytes { self.new ≡ contents (written self.old.bytes target (slice_range self.old.bytes source (source + len)))
            self.old.carved }
        ensures size { length self.new.bytes ≡ length self.old.bytes }
    {
        self.slide(source, target, len);
    }

    /// The number in the 4 bytes from `at` on, the low byte first.
    pub fn word(&self, at: u32) -> u32
        requires { at + 4 ≤ length self.now.bytes }
        ensures { result ≡ from_le_bytes w32 (slice_range self.now.bytes at (at + 4)) }
    {
        word_of(self.block.bytes(at as usize, 4))
    }

    /// Writes a number into the 4 bytes from `at` on, the low byte first.
    pub fn put_word(&mut self, at: u32, word: u32)
        requires { at + 4 ≤ length self.old.bytes }
        ensures bytes { self.new ≡ contents (written self.old.bytes at (to_le_bytes w32 word)) self.old.carved }
        ensures size { length self.new.bytes ≡ length self.old.bytes }
    {
        put_bytes(self.block.bytes_mut(at as usize, 4), word);
    }
}

impl Drop for Arena {
    fn drop(self) {
        let Arena {
            block,
            alloc,
            size: _,
            carved: _,
        } = self;
        block.free(&alloc);
    }
}
