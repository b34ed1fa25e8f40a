//! The rows of a heap, and numbers of bytes.

ghost use Rattle.std.specs.Prelude.{◌≡◌, ◌+◌, ◌≤◌, ◌<◌};
ghost use Rattle.heap_core.specs.HeapStore.{least_room, room_taken};
ghost use Rattle.modules_c.specs.Heapmem.Heaps.{row_limit, size_of, rest_of, room_of};

/// A row of the table: one block, in 8 bytes, since a table has many.
#[repr(C)]
#[derive(Clone, Copy, Drop)]
pub struct Row {
    /// Where the block begins: its offset from the heap's start.
    pub offset: u32,
    /// 32 times the number of its bytes, plus the number of further ones that are reserved for it. These are at most 24: up to 8
    /// that rounding adds, and a rest of a gap.
    pub extent: u32,
}

/// The row of a block.
#[tactic(auto, unfolding(crate::specs::Heapmem::Heaps::size_of, crate::specs::Heapmem::Heaps::rest_of))]
pub fn row_for(offset: usize, room: usize, size: usize) -> Row
    requires fits { size ≤ room }
    requires rest { room < size + 32 }
    requires small { offset + room < row_limit }
    ensures offset { result.offset ≡ offset }
    ensures room { room_of result ≡ room }
    ensures size { size_of result ≡ size }
{
    Row {
        offset: offset as u32,
        extent: (size * 32 + (room - size)) as u32,
    }
}

/// The number of a block's bytes.
#[tactic(auto, unfolding(crate::specs::Heapmem::Heaps::size_of))]
pub fn size_of(row: Row) -> usize
    ensures { result ≡ size_of row }
{
    row.extent as usize / 32
}

/// The number of bytes reserved for a block.
#[tactic(auto, unfolding(crate::specs::Heapmem::Heaps::size_of, crate::specs::Heapmem::Heaps::rest_of))]
pub fn room_of(row: Row) -> usize
    ensures { result ≡ room_of row }
{
    row.extent as usize / 32 + row.extent as usize % 32
}

/// The figures of a heap.
#[repr(C)]
#[derive(Clone, Copy, Drop)]
pub struct Stats {
    /// The number of bytes reserved for the blocks.
    pub allocated: usize,
    /// The number of bytes between them and after the last one.
    pub available: usize,
    /// Where the last block ends; 0 where there is none.
    pub footprint: usize,
    /// The number of blocks.
    pub chunks: usize,
}

/// Bytes between blocks.
#[derive(Clone, Copy, Drop)]
pub struct Hole {
    pub at: usize,
    pub len: usize,
}

/// Where a block goes, and the number of bytes reserved for it.
#[derive(Clone, Copy, Drop)]
pub struct Spot {
    pub at: usize,
    pub room: usize,
}

/// The longest rest of a gap that is left to the block.
const LONGEST_REST: usize = 16;

/// The room that a block of `n` bytes needs.
pub fn least_room(n: usize) -> u128
    ensures { result ≡ least_room 0 n }
{
    ((n as u128 + 3) / 4 * 4).max(8)
}

/// The room that a block takes of that much: what is left stays a gap only where it is longer than the longest rest.
pub fn room_taken(least: usize, available: usize) -> usize
    requires { least ≤ available }
    ensures { result ≡ room_taken least available }
{
    if available - least > LONGEST_REST {
        least
    } else {
        available
    }
}
