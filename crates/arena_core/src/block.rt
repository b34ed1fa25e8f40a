//! The arena's block of memory, at a raw pointer.
//!
//! It lends its bytes as slices, which safe functions read and write.

ghost use Rattle.std.specs.Prelude.{◌≡◌, ℕ, ◌+◌, ◌^◌, ◌<◌, ◌≤◌, List, length, slice_range, replicate, IfOk};
ghost use Rattle.std.specs.Borrow.{sem, full_share, Array, u8 as byte};
ghost use Rattle.std.specs.Ptr.{lies_at, room_for};
ghost use Rattle.arena_core.specs.Code.Ownership.{block_owns, block_shares, bytes_type};

use std::alloc::{AllocError, Allocator, Global};
use std::marker::Model;
use std::slice;

/// `len` bytes at `ptr`, with the right to free them. It has no `Drop`: code that drops or forgets one is refused, so each is
/// freed.
pub struct Block {
    pub ptr: *mut u8,
    len: usize,
    pub ghost bytes: { List ℕ },
    ghost ok: { (len ≡ length bytes) × (len < 2 ^ 32) },
}

impl Model for Block {
    ghost also_owns = { λ b. block_owns b.ptr b.len b.bytes };

    ghost also_shares = { λ b _ κ. block_shares b.ptr b.len b.bytes κ };
}

impl Block {
    ghost use Rattle.arena_core.specs.Code.Lending.{lends_range};

    /// A block of `len` zeros.
    pub fn new(alloc: &Global, len: usize) -> Result<Block, AllocError>
        requires { (0 < len) × (len < 2 ^ 32) }
        ensures { IfOk result (λ b. b.bytes ≡ replicate len 0) }
    {
        match alloc.allocate(len, 1) {
            Ok(ptr) => {
                unsafe { zero(ptr, len) };
                Ok(Block { ptr, len })
            }
            Err(error) => Err(error),
        }
    }

    /// Frees the memory.
    pub fn free(self, alloc: &Global) {
        let Block { ptr, len } = self;
        unsafe { alloc.deallocate(ptr, len, 1) };
    }

    pub fn bytes(&self, at: usize, len: usize) -> &[u8]
        requires { at + len ≤ length self.now.bytes }
        ensures { result.now ≡ slice_range self.now.bytes at (at + len) }
    {
        unsafe { slice::from_raw_parts(self.ptr.add(at), len) }
    }

    pub fn bytes_mut(&mut self, at: usize, len: usize) -> &mut [u8]
        requires { at + len ≤ length self.old.bytes }
        ensures* writes_back { sem 𝓛 (lends_range self.entry at result) }
        ensures value { result.now ≡ slice_range self.old.bytes at (at + len) }
    {
        unsafe { slice::from_raw_parts_mut(self.ptr.add(at), len) }
    }
}

/// Writes zeros to the `len` bytes at `ptr`: no call of the allocator returns zeros.
unsafe fn zero(ptr: *mut u8, len: usize)
    requires size { len < 2 ^ 32 }
    requires* room { sem 𝓛 (room_for (bytes_type len) ptr) }
    ensures* { sem 𝓛 (lies_at (Array byte len) full_share ptr (replicate len 0)) }
{
    let mut i = 0;
    while i < len {
        unsafe { *ptr.add(i) = 0 };
        i += 1;
    }
}
