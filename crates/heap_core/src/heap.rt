//! The heap, and the calls on blocks.

ghost use Rattle.std.specs.Prelude.{◌≡◌, ℕ, List, ◌+◌, ◌≤◌, ◌<◌, ◌↔◌, length, All, IsNone, IfNone, OnSome, IsSome, IsSomeAnd, Some, None};
ghost use Rattle.mote_types.specs.Code.Conditions.{IsName};
ghost use Rattle.heap_core.specs.HeapStore.{empty_heap, least_room, block_of, place, allocated, freed, reallocated, with_bytes, stats_of, gaps};
ghost use Rattle.heap_core.specs.Code.Conditions.{IsHeapSize, IsHeaderLength, length_of, live_place};
ghost use Rattle.heap_core.specs.Code.BlockOrder.{LieApart};

use crate::chunk::Place;
use crate::hints::Hints;
use crate::place_table::PlaceTable;
use crate::region::Region;
use arena_core::{Arena, Span};
use mote_types::block_name::{Key, number_of};
use mote_types::reply::HeapStats;
use std::marker::Model;

/// Heap memory over a span of an arena (`heapmem.h` of Contiki-NG). Where a block goes is this project's profile.
///
/// Each call is passed that arena, with the span's bytes as the calls before left them.
#[derive(Drop)]
pub struct Heap {
    region: Region,
    /// Where walks along the gaps may begin. No call depends on it but in time.
    hints: Hints,
}

impl Model for Heap {
    ghost use Rattle.heap_core.specs.declared.region.Region.{Region as Divided};

    ghost Value = { Divided };

    ghost view = { λ h. h.region };
}

impl Heap {
    ghost use Rattle.heap_core.specs.Code.FreeList.{free_chunks};
    ghost use Rattle.heap_core.specs.Code.HeapBytes.{heap_of, IsWithin, IsLaidOut, linked_of, KeepsToSpan};
    ghost use Rattle.heap_core.specs.Code.Separation.{BlocksLieApart};

    /// A heap without a block, over a span of 20 to 65,536 bytes, a multiple of 4, with headers of 16 or of 8 bytes. The span's
    /// bytes may be anything.
    pub fn new(span: Span, header: u32) -> Heap
        requires span { IsHeapSize span.len }
        requires header { IsHeaderLength header }
        ensures span { result.span ≡ span }
        ensures header { result.header ≡ header }
        ensures laid_out { (bytes : List ℕ) → IsWithin result bytes → IsLaidOut result bytes }
        ensures empty { (bytes : List ℕ) → heap_of result bytes ≡ empty_heap span.len header }
    {
        Heap {
            region: Region {
                span,
                header,
                footprint: 0,
                places: PlaceTable::new(),
                newest: None,
                freed: 0,
                lowest: None,
                gaps: 0,
            },
            hints: Hints::new(),
        }
    }

    /// Allocates a block of `n` bytes, all 0, for a name that is not live (`heapmem_alloc`). `None` exactly where no gap
    /// takes the block with its header; then every block stays as it is. Joins what was freed first.
    pub fn alloc(&mut self, arena: &mut Arena, key: Key, n: u32) -> Option<()>
        requires named { IsName key.0.0 key.1 }
        requires laid_out { IsLaidOut self.old arena.old.bytes }
        requires unused { block_of key.0.0 key.1 (heap_of self.old arena.old.bytes) ≡ None }
        requires some_bytes { 1 ≤ n }
        ensures refused { IsNone result ↔ (place n (heap_of self.old arena.old.bytes) ≡ None) }
        ensures unchanged { IfNone result (heap_of self.new arena.new.bytes ≡ heap_of self.old arena.old.bytes) }
        ensures block { OnSome result
            (allocated key.0.0 key.1 n (heap_of self.old arena.old.bytes) ≡ Some (heap_of self.new arena.new.bytes)) }
        ensures laid_out { IsLaidOut self.new arena.new.bytes }
        ensures linked { linked_of self.new ≡ length (gaps (heap_of self.new arena.new.bytes)) }
        ensures rest { KeepsToSpan self.old self.new arena.old arena.new }
    {
        self.region.join(arena, &self.hints);
        let target = self.region.place(arena, n)?;
        let name = number_of(key);
        self.region.put_block(arena, target, name as u32, n, None);
        self.region.places.put(name, target.place.at);
        Some(())
    }

    /// Resizes a name's block to `n` bytes (`heapmem_realloc`): the first bytes stay, as many as both lengths have, and
    /// further ones are 0. `None` exactly where it fits nowhere; then every block stays as it is. Joins what was freed
    /// first.
    // Inlined, it would take registers from the calls beside it.
    #[inline(never)]
    pub fn realloc(&mut self, arena: &mut Arena, key: Key, n: u32) -> Option<()>
        requires named { IsName key.0.0 key.1 }
        requires laid_out { IsLaidOut self.old arena.old.bytes }
        requires live { IsSome (block_of key.0.0 key.1 (heap_of self.old arena.old.bytes)) }
        requires some_bytes { 1 ≤ n }
        ensures refused { IsNone result ↔ (reallocated key.0.0 key.1 n (heap_of self.old arena.old.bytes) ≡ None) }
        ensures unchanged { IfNone result (heap_of self.new arena.new.bytes ≡ heap_of self.old arena.old.bytes) }
        ensures block { OnSome result
            (reallocated key.0.0 key.1 n (heap_of self.old arena.old.bytes) ≡ Some (heap_of self.new arena.new.bytes)) }
        ensures laid_out { IsLaidOut self.new arena.new.bytes }
        ensures rest { KeepsToSpan self.old self.new arena.old arena.new }
    {
        let name = number_of(key);
        self.region.join(arena, &self.hints);
        let chunk = self.region.live_chunk(arena, name as u32);
        let Some(room) = self.region.room_in_place(arena, chunk, n) else {
            let at = self.region.relocate(arena, chunk, name as u32, n)?;
            self.region.places.put(name, at);
            return Some(());
        };
        let start = self
            .region
            .start_below(arena, chunk.at, self.hints.below(chunk.at));
        self.region
            .resize(arena, chunk, name as u32, room, n, start);
        self.hints.put(chunk.at, name);
        Some(())
    }

    /// Frees a name's block (`heapmem_free`). Its chunk is linked to the one that was freed before it, and joined later.
    pub fn free(&mut self, arena: &mut Arena, key: Key)
        requires named { IsName key.0.0 key.1 }
        requires laid_out { IsLaidOut self.old arena.old.bytes }
        requires live { IsSome (block_of key.0.0 key.1 (heap_of self.old arena.old.bytes)) }
        ensures block { heap_of self.new arena.new.bytes ≡ freed key.0.0 key.1 (heap_of self.old arena.old.bytes) }
        ensures linked { linked_of self.new ≡ linked_of self.old + 1 }
        ensures laid_out { IsLaidOut self.new arena.new.bytes }
        ensures rest { KeepsToSpan self.old self.new arena.old arena.new }
    {
        let name = number_of(key);
        let chunk = self.region.live_chunk(arena, name as u32);
        self.region.set_aside(arena, chunk);
        self.region.places.clear(name);
    }

    /// The bytes of a name's block.
    pub fn bytes<'a>(&self, arena: &'a Arena, key: Key) -> &'a [u8]
        requires named { IsName key.0.0 key.1 }
        requires laid_out { IsLaidOut self.now arena.now.bytes }
        requires live { IsSome (block_of key.0.0 key.1 (heap_of self.now arena.now.bytes)) }
        ensures { block_of key.0.0 key.1 (heap_of self.now arena.now.bytes) ≡ Some result.now }
    {
        let chunk = self.region.live_chunk(arena, number_of(key) as u32);
        arena.bytes(self.region.body(chunk))
    }

    /// Writes bytes into a name's block, from offset `at` on.
    pub fn write(&self, arena: &mut Arena, key: Key, at: u32, bytes: &[u8])
        requires named { IsName key.0.0 key.1 }
        requires laid_out { IsLaidOut self.now arena.old.bytes }
        requires range { IsSomeAnd (block_of key.0.0 key.1 (heap_of self.now arena.old.bytes))
            (λ block. at + length bytes.now ≤ length block) }
        ensures block { heap_of self.now arena.new.bytes ≡ with_bytes key.0.0 key.1 at bytes.now (heap_of self.now arena.old.bytes) }
        ensures laid_out { IsLaidOut self.now arena.new.bytes }
        ensures rest { KeepsToSpan self.now self.now arena.old arena.new }
    {
        let chunk = self.region.live_chunk(arena, number_of(key) as u32);
        let body = self.region.body(chunk);
        let target = arena.bytes_mut(Span {
            at: body.at + at,
            len: bytes.len() as u32,
        });
        target.copy_from_slice(bytes);
    }

    /// What the blocks and the gaps take (`heapmem_stats`).
    pub fn stats(&self, arena: &Arena) -> HeapStats
        requires { IsLaidOut self.now arena.now.bytes }
        ensures { result ≡ stats_of (heap_of self.now arena.now.bytes) }
    {
        self.region.stats(arena)
    }

    /// The length of the free list: the chunks that were freed and are not joined yet, and after them the gaps: all chunks but
    /// the live blocks. `free` adds 1 to it; after each `alloc`, refused or not, it is the number of gaps below the top gap.
    pub fn linked(&self) -> u32
        ensures value { result ≡ linked_of self.now }
        ensures free { (bytes : List ℕ) → IsLaidOut self.now bytes → result ≡ length (free_chunks self.now bytes) }
    {
        self.region.freed as u32 + self.region.gaps as u32
    }

    /// The length of a name's block, as it was asked for, if it is live.
    pub fn len_of(&self, arena: &Arena, key: Key) -> Option<u32>
        requires named { IsName key.0.0 key.1 }
        requires laid_out { IsLaidOut self.now arena.now.bytes }
        ensures { result ≡ length_of key.0.0 key.1 (heap_of self.now arena.now.bytes) }
    {
        let chunk = self.region.find(arena, number_of(key) as u32)?;
        Some(chunk.size)
    }

    /// Where a name's block is, if it is live: its header begins at that offset of the span, and its room is after the header.
    pub fn place_of(&self, arena: &Arena, key: Key) -> Option<Place>
        requires named { IsName key.0.0 key.1 }
        requires laid_out { IsLaidOut self.now arena.now.bytes }
        ensures { result ≡ live_place key.0.0 key.1 (heap_of self.now arena.now.bytes) }
    {
        let chunk = self.region.find(arena, number_of(key) as u32)?;
        let room = chunk.len.saturating_sub(self.region.header);
        Some(Place { at: chunk.at, room })
    }

    /// The blocks are in the span with their headers, one after the other, and no two of them share a byte. Each block's bytes
    /// are those after its header. Each gap below the top gap takes the shortest block there is, with its header.
    pub fn blocks_lie_apart(&self, arena: &Arena)
        requires { IsLaidOut self.now arena.now.bytes }
        ensures order { LieApart (heap_of self.now arena.now.bytes) }
        ensures gaps { All (λ gap. self.now.header + least_room self.now.header 1 ≤ gap.len) (gaps (heap_of self.now arena.now.bytes)) }
        ensures apart { BlocksLieApart self.now arena.now.bytes }
    {
        // Does nothing: the clauses state what holds of the heap after any calls.
        let _region = &self.region;
        let _ = arena;
    }
}
