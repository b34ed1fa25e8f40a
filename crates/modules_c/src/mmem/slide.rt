//! How blocks slide together, and where a new one is put.

ghost use Rattle.std.specs.Prelude.{◌≡◌, ◌+◌, ◌-◌, ◌≤◌, ◌<◌, length, sum_by, slice_set, IsSomeAnd};
ghost use Rattle.mote_types.specs.Rounding.{up4};
ghost use Rattle.mmem_core.specs.ManagedStore.{allocated};
ghost use Rattle.mmem_core.specs.Code.Places.{place_in, last_end};
ghost use Rattle.mmem_core.specs.Code.Laid.{room_of};
ghost use Rattle.modules_c.specs.Mmem.Stored.{places_told, stored, IsTable, process_of, handle_of};
ghost use Rattle.modules_c.specs.Code.MmemRows.{row_of, IsNext, MovesDown, LiesBehind};

use crate::bytes::{clear, copy};
use crate::mmem::block::{Block, fits, rounded};
use crate::mmem::table::end_of_last;

/// The lowest block of those that begin at `low` or after it.
fn next_from(blocks: &[Block], low: usize) -> Option<usize>
    ensures { IsNext blocks.now low (length blocks.now) result }
{
    let mut next: Option<usize> = None;
    for number in 0..blocks.len() {
        let block = blocks[number];
        if block.size != 0 && low <= block.offset as usize {
            next = match next {
                Some(best) if blocks[best].offset <= block.offset => Some(best),
                _ => Some(number),
            };
        }
    }
    next
}

/// Slides all blocks together, from the buffer's start on and in the order of their positions. Returns where the last one ends.
fn slide_together(blocks: &mut [Block], buffer: &mut [u8]) -> usize
    requires { IsTable blocks.old (length buffer.old) }
    ensures table { IsTable blocks.new (length buffer.new) }
    ensures store { stored blocks.new buffer.new ≡ stored blocks.old buffer.old }
    ensures end { result ≡ last_end (places_told blocks.new) }
    ensures inside { result ≤ length buffer.new }
    ensures together { result ≤ sum_by room_of (places_told blocks.old) }
    ensures moves { MovesDown blocks.old blocks.new }
{
    let mut end = 0;
    while let Some(number) = next_from(blocks, end) {
        let block = blocks[number];
        copy(buffer, block.offset as usize, block.size as usize, end);
        blocks[number] = Block {
            offset: end as u32,
            size: block.size,
        };
        end += rounded(block.size as usize);
    }
    end
}

/// Ensures that `size` bytes after the last block are free: where they aren't, all blocks slide together. Returns where the
/// last block ends.
pub fn make_room(blocks: &mut [Block], buffer: &mut [u8], size: usize) -> usize
    requires table { IsTable blocks.old (length buffer.old) }
    requires room { up4 size ≤ length buffer.old - sum_by room_of (places_told blocks.old) }
    ensures table { IsTable blocks.new (length buffer.new) }
    ensures store { stored blocks.new buffer.new ≡ stored blocks.old buffer.old }
    ensures end { result ≡ last_end (places_told blocks.new) }
    ensures room { result + up4 size ≤ length buffer.new }
    ensures moves { MovesDown blocks.old blocks.new }
    ensures still { last_end (places_told blocks.old) + up4 size ≤ length buffer.old → (blocks.new ≡ blocks.old)
        × (buffer.new ≡ buffer.old) }
    ensures together { length buffer.old < last_end (places_told blocks.old) + up4 size → result ≤ sum_by room_of (places_told blocks.old) }
{
    let end = end_of_last(blocks, buffer.len());
    if fits(size, buffer.len() - end) {
        return end;
    }
    slide_together(blocks, buffer)
}

/// Puts a block of zeros after the last one.
pub fn put_last(blocks: &mut [Block], buffer: &mut [u8], handle: usize, block: Block)
    requires there { handle < length blocks.old }
    requires unused { (row_of blocks.old handle).size ≡ 0 }
    requires table { IsTable blocks.old (length buffer.old) }
    requires lies { LiesBehind blocks.old (length buffer.old) block }
    ensures table { IsTable blocks.new (length buffer.new) }
    ensures store { stored blocks.new buffer.new ≡ allocated (process_of handle) (handle_of handle) block.size
        (stored blocks.old buffer.old) }
    ensures row { blocks.new ≡ slice_set blocks.old handle block }
    ensures last { last_end (places_told blocks.new) ≡ block.offset + up4 block.size }
    ensures new_last { IsSomeAnd (place_in (places_told blocks.new) handle)
        (λ place. last_end (places_told blocks.new) ≡ place.at + up4 block.size) }
{
    clear(buffer, block.offset as usize, block.size as usize);
    blocks[handle] = block;
}
