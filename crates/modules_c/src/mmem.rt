//! Managed memory for C (`mmem.h` of Contiki), over a table and a buffer that its owner stores: `toarmuts/calls.h` in
//! `c/modules/include` declares these calls, and `toarmuts/managed.h` and `lib/mmem.h` there make pointers of the positions.
//!
//! A table has a row for each handle: where its block is in the buffer, and its length. Each contract is about the store of
//! these handles, by mmem_core's definitions. No call requires anything of rows, numbers or lengths: where the blocks of a table
//! aren't in the buffer, apart from each other, no block is allocated. A row's numbers have 32 bits, so none is allocated in a
//! buffer of 2^32 bytes or more either.

mod block;
mod slide;
mod status;
mod table;

ghost use Rattle.std.specs.Prelude.{◌≡◌, ◌≢◌, ℕ, List, ◌+◌, ◌≤◌, ◌<◌, length, IsSomeAnd, true, false, Some, None};
ghost use Rattle.mote_types.specs.Bytes.{range_of};
ghost use Rattle.mote_types.specs.Rounding.{up4};
ghost use Rattle.mmem_core.specs.declared.place.Place.{Place};
ghost use Rattle.mmem_core.specs.ManagedStore.{unused, block_of, freed};
ghost use Rattle.mmem_core.specs.Code.Conditions.{length_of};
ghost use Rattle.mmem_core.specs.Code.Places.{place_in};
ghost use Rattle.modules_c.specs.Mmem.Stored.{row_limit, places_told, stored, IsTable, process_of, handle_of, unused_store};
ghost use Rattle.modules_c.specs.Mmem.Given.{GivesBlock};
ghost use Rattle.modules_c.specs.Mmem.Answers.{Answer, number_of_answer, is_live, answer_to};

use crate::mmem::block::fits;
use crate::mmem::slide::{make_room, put_last};
use crate::mmem::status::{ALLOCATED, IN_USE, NO_BYTES, NO_HANDLE, NO_ROOM, NO_TABLE};
use crate::mmem::table::{has_block, left_over, lie_apart, lies_inside};
pub use block::Block;

/// A row has numbers of 32 bits, so it can't describe all blocks of a larger buffer.
const MOST_BYTES: usize = u32::MAX as usize;

/// No block.
const UNUSED: Block = Block { offset: 0, size: 0 };

/// Frees the blocks of all handles (`mmem_init`).
#[unsafe(no_mangle)]
pub extern "C" fn toarmuts_mmem_init(blocks: &mut [Block])
    ensures store { (buffer : List ℕ) → stored blocks.new buffer ≡ unused_store (length blocks.old) (length buffer) }
    ensures table { (capacity : ℕ) → IsTable blocks.new capacity }
{
    blocks.fill(UNUSED);
}

/// Allocates a block of `size` bytes, all 0, for a handle (`mmem_alloc`). Where the space after the last block is too short,
/// all blocks slide together first. Where it returns anything but `ALLOCATED`, nothing changes.
#[unsafe(no_mangle)]
pub extern "C" fn toarmuts_mmem_alloc(
    blocks: &mut [Block],
    buffer: &mut [u8],
    handle: usize,
    size: usize,
) -> u8
    ensures table { result ≢ number_of_answer Answer.NoTable → IsTable blocks.old (length buffer.old) }
    ensures no_table { IsTable blocks.old (length buffer.old) → length buffer.old < row_limit → result ≢ number_of_answer Answer.NoTable }
    ensures answer { result ≢ number_of_answer Answer.NoTable
        → result ≡ number_of_answer (answer_to handle size (stored blocks.old buffer.old)) }
    ensures given { result ≡ number_of_answer Answer.Allocated → GivesBlock blocks.old blocks.new buffer.old buffer.new handle size }
    ensures unchanged { result ≢ number_of_answer Answer.Allocated → (blocks.new ≡ blocks.old) × (buffer.new ≡ buffer.old) }
{
    if buffer.len() > MOST_BYTES {
        return NO_TABLE;
    }
    if !lie_apart(blocks, buffer.len()) {
        return NO_TABLE;
    }
    if handle >= blocks.len() {
        return NO_HANDLE;
    }
    if has_block(blocks, handle) {
        return IN_USE;
    }
    if size == 0 {
        return NO_BYTES;
    }
    if !fits(size, left_over(blocks, buffer.len())) {
        return NO_ROOM;
    }
    let offset = make_room(blocks, buffer, size);
    put_last(
        blocks,
        buffer,
        handle,
        Block {
            offset: offset as u32,
            size: size as u32,
        },
    );
    ALLOCATED
}

/// Frees a handle's block (`mmem_free`), which leaves a hole. Returns `false` exactly where the handle has none, and then nothing
/// changes. It looks at no other row, since a walk over the table costs far more: rows that are no table aren't detected here.
#[unsafe(no_mangle)]
pub extern "C" fn toarmuts_mmem_free(blocks: &mut [Block], handle: usize) -> bool
    ensures live { (buffer : List ℕ) → result ≡ is_live handle (stored blocks.old buffer) }
    ensures block { result ≡ true → (buffer : List ℕ)
        → stored blocks.new buffer ≡ freed (process_of handle) (handle_of handle) (stored blocks.old buffer) }
    ensures sound { (capacity : ℕ) → IsTable blocks.old capacity → IsTable blocks.new capacity }
    ensures unchanged { result ≡ false → blocks.new ≡ blocks.old }
{
    if !has_block(blocks, handle) {
        return false;
    }
    blocks[handle] = UNUSED;
    true
}

/// Where a handle's block begins in a buffer of `capacity` bytes (`MMEM_PTR`). Where the handle has none, or the row names
/// one that isn't in the buffer, returns the size of the buffer.
#[unsafe(no_mangle)]
pub extern "C" fn toarmuts_mmem_place(blocks: &[Block], capacity: usize, handle: usize) -> usize
    ensures within { result ≤ capacity }
    ensures block { result < capacity → (buffer : List ℕ) → length buffer ≡ capacity →
        IsSomeAnd (length_of (process_of handle) (handle_of handle) (stored blocks.now buffer)) (λ len.
        (result + len ≤ capacity) × (block_of (process_of handle) (handle_of handle) (stored blocks.now buffer) ≡ Some (range_of result len buffer))) }
    ensures inside { result < capacity
        → IsSomeAnd (place_in (places_told blocks.now) handle) (λ place. (result ≡ place.at) × (place.at + up4 place.len ≤ capacity)) }
    ensures none { result ≡ capacity → IsTable blocks.now capacity → (buffer : List ℕ) →
        block_of (process_of handle) (handle_of handle) (stored blocks.now buffer) ≡ None }
    ensures outside { result ≡ capacity → (place : Place) → place_in (places_told blocks.now) handle ≡ Some place
        → capacity < place.at + up4 place.len }
{
    if !has_block(blocks, handle) || !lies_inside(blocks[handle], capacity) {
        return capacity;
    }
    blocks[handle].offset as usize
}

/// The number of free bytes of `capacity`: what the blocks' lengths, rounded up to multiples of 4, leave. Where the blocks
/// aren't in them, apart from each other, it is 0.
#[unsafe(no_mangle)]
pub extern "C" fn toarmuts_mmem_avail(blocks: &[Block], capacity: usize) -> usize
    ensures table { (buffer : List ℕ) → length buffer ≡ capacity → IsTable blocks.now capacity
        → result ≡ unused (stored blocks.now buffer) }
    ensures no_table { ¬ IsTable blocks.now capacity → result ≡ 0 }
{
    if lie_apart(blocks, capacity) {
        left_over(blocks, capacity)
    } else {
        0
    }
}
