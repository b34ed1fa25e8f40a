//! A heap in which calls are executed as in the mote, by the same code.

ghost use Rattle.std.specs.Prelude.{◌≡◌, ◌⊎◌, ◌≤◌, Some, None, IsSome, IsSomeAnd, IfOk};
ghost use Rattle.std.specs.Bool.{OnTrue, OnFalse};
ghost use Rattle.mote_types.specs.Code.Conditions.{IsName};
ghost use Rattle.heap_core.specs.HeapStore.{empty_heap, allocated, reallocated, freed, place, stats_of};
ghost use Rattle.heap_core.specs.Code.Conditions.{IsHeapSize, IsHeaderLength, length_of, live_place};

use arena_core::Arena;
use heap_core::{Heap, Key, Place};
use mote_types::reply::HeapStats;
use std::alloc::{AllocError, Global};
use std::marker::Model;

/// A heap in an arena of its own. Contracts see it as the definitions of heap memory do.
#[derive(Drop)]
pub struct LiveHeap {
    arena: Arena,
    heap: Heap,
}

impl Model for LiveHeap {
    ghost use Rattle.heap_core.specs.HeapStore.{HeapStore};
    ghost use Rattle.heap_core.specs.Code.HeapBytes.{heap_of, IsLaidOut};

    ghost Value = { HeapStore };

    ghost view = { λ m. heap_of m.heap m.arena.bytes };

    ghost invariant = { λ m. IsLaidOut m.heap m.arena.bytes };
}

impl LiveHeap {
    /// A heap of `size` bytes, without a block: the arena always has room for it, so the answer is never `None`.
    pub fn new(alloc: Global, size: u32, header: u32) -> Result<Option<LiveHeap>, AllocError>
        requires size { IsHeapSize size }
        requires header { IsHeaderLength header }
        ensures { IfOk result (λ heap. IsSomeAnd heap (λ heap. heap ≡ empty_heap size header)) }
    {
        let mut arena = Arena::new(alloc, size)?;
        let Some(span) = arena.carve(size) else {
            return Ok(None);
        };
        Ok(Some(LiveHeap {
            heap: Heap::new(span, header),
            arena,
        }))
    }

    /// Allocates a block. Returns whether there was none of that name, and room for it.
    pub fn alloc(&mut self, key: Key, n: u32) -> bool
        requires { IsName key.0.0 key.1 }
        ensures made { OnTrue result (allocated key.0.0 key.1 n self.old ≡ Some self.new) }
        ensures may { OnTrue result ((1 ≤ n) × (length_of key.0.0 key.1 self.old ≡ None)) }
        ensures refused { OnFalse result (self.new ≡ self.old) }
        ensures reason { OnFalse result ((n ≡ 0) ⊎ IsSome (length_of key.0.0 key.1 self.old) ⊎ (place n self.old ≡ None)) }
    {
        if n == 0 || self.heap.len_of(&self.arena, key).is_some() {
            return false;
        }
        match self.heap.alloc(&mut self.arena, key, n) {
            Some(()) => true,
            None => false,
        }
    }

    /// Resizes a block. Returns whether there was one, and room for it.
    pub fn realloc(&mut self, key: Key, n: u32) -> bool
        requires { IsName key.0.0 key.1 }
        ensures made { OnTrue result (reallocated key.0.0 key.1 n self.old ≡ Some self.new) }
        ensures may { OnTrue result ((1 ≤ n) × IsSome (length_of key.0.0 key.1 self.old)) }
        ensures refused { OnFalse result (self.new ≡ self.old) }
        ensures reason { OnFalse result ((n ≡ 0) ⊎ (length_of key.0.0 key.1 self.old ≡ None)
            ⊎ (reallocated key.0.0 key.1 n self.old ≡ None)) }
    {
        if n == 0 || self.heap.len_of(&self.arena, key).is_none() {
            return false;
        }
        match self.heap.realloc(&mut self.arena, key, n) {
            Some(()) => true,
            None => false,
        }
    }

    /// Frees a block. Returns whether there was one.
    pub fn free(&mut self, key: Key) -> bool
        requires { IsName key.0.0 key.1 }
        ensures freed { OnTrue result (self.new ≡ freed key.0.0 key.1 self.old) }
        ensures live { OnTrue result (IsSome (length_of key.0.0 key.1 self.old)) }
        ensures refused { OnFalse result (self.new ≡ self.old) }
        ensures reason { OnFalse result (length_of key.0.0 key.1 self.old ≡ None) }
    {
        if self.heap.len_of(&self.arena, key).is_none() {
            return false;
        }
        self.heap.free(&mut self.arena, key);
        true
    }

    /// Where a block is, if it is live.
    pub fn place_of(&self, key: Key) -> Option<Place>
        requires { IsName key.0.0 key.1 }
        ensures { result ≡ live_place key.0.0 key.1 self.now }
    {
        self.heap.place_of(&self.arena, key)
    }

    /// What the blocks and the gaps take.
    pub fn stats(&self) -> HeapStats
        ensures { result ≡ stats_of self.now }
    {
        self.heap.stats(&self.arena)
    }
}
