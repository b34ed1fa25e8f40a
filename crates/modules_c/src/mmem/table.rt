//! Whether the rows of a table describe blocks that are apart, and what these leave free.

ghost use Rattle.std.specs.Prelude.{◌≡◌, ◌+◌, ◌-◌, ◌≤◌, ◌<◌, ◌↔◌, IsTrue, true, false, length, sum_by};
ghost use Rattle.mote_types.specs.Rounding.{up4};
ghost use Rattle.mmem_core.specs.Code.Places.{last_end};
ghost use Rattle.mmem_core.specs.Code.Laid.{room_of};
ghost use Rattle.modules_c.specs.Mmem.Stored.{places_told, IsTable};
ghost use Rattle.modules_c.specs.Code.MmemRows.{row_of, EndsBefore, IsClear};

use crate::mmem::block::{Block, fits, rounded};

/// Whether a handle has a block.
pub fn has_block(blocks: &[Block], handle: usize) -> bool
    ensures some { result ≡ true → 0 < (row_of blocks.now handle).size }
    ensures none { result ≡ false → (row_of blocks.now handle).size ≡ 0 }
{
    handle < blocks.len() && blocks[handle].size != 0
}

/// Whether a block is in `capacity` bytes.
pub fn lies_inside(block: Block, capacity: usize) -> bool
    ensures inside { result ≡ true → 0 < block.size → block.offset + up4 block.size ≤ capacity }
    ensures outside { result ≡ false → (0 < block.size) × (capacity < block.offset + up4 block.size) }
{
    let offset = block.offset as usize;
    block.size == 0 || offset <= capacity && fits(block.size as usize, capacity - offset)
}

/// Whether one block ends where the other begins, or before, unless it begins after that.
fn ends_before(one: Block, other: Block) -> bool
    ensures { IsTrue result ↔ EndsBefore one other }
{
    one.size == 0
        || other.size == 0
        || other.offset < one.offset
        || rounded(one.size as usize) <= (other.offset - one.offset) as usize
}

/// Whether a block ends before each other one that begins no lower.
fn is_clear(blocks: &[Block], number: usize) -> bool
    requires { number < length blocks.now }
    ensures { IsTrue result ↔ IsClear blocks.now number (length blocks.now) }
{
    for other in 0..blocks.len() {
        if other != number && !ends_before(blocks[number], blocks[other]) {
            return false;
        }
    }
    true
}

/// Whether the blocks are in `capacity` bytes, and no two of them share one.
pub fn lie_apart(blocks: &[Block], capacity: usize) -> bool
    ensures { IsTrue result ↔ IsTable blocks.now capacity }
{
    for number in 0..blocks.len() {
        if !lies_inside(blocks[number], capacity) || !is_clear(blocks, number) {
            return false;
        }
    }
    true
}

/// What the blocks leave of `capacity` bytes.
pub fn left_over(blocks: &[Block], capacity: usize) -> usize
    requires { IsTable blocks.now capacity }
    ensures { result ≡ capacity - sum_by room_of (places_told blocks.now) }
{
    let mut left = capacity;
    for block in blocks {
        left = left.saturating_sub(rounded(block.size as usize));
    }
    left
}

/// Where a block ends; 0 where there is none.
fn end_of(block: Block) -> usize
    ensures none { block.size ≡ 0 → result ≡ 0 }
    ensures some { 0 < block.size → result ≡ block.offset + up4 block.size }
{
    if block.size == 0 {
        0
    } else {
        block.offset as usize + rounded(block.size as usize)
    }
}

/// Where the last block ends.
pub fn end_of_last(blocks: &[Block], capacity: usize) -> usize
    requires { IsTable blocks.now capacity }
    ensures end { result ≡ last_end (places_told blocks.now) }
    ensures inside { result ≤ capacity }
{
    let mut end = 0;
    for block in blocks {
        let here = end_of(*block);
        if end < here {
            end = here;
        }
    }
    end
}
