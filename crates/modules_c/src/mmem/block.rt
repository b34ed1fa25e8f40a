//! Where a block is, and the room it takes.

ghost use Rattle.std.specs.Prelude.{◌+◌, ◌^◌, ◌≤◌, ◌<◌, ◌≡◌, true, false};
ghost use Rattle.mote_types.specs.Rounding.{up4};

/// A row of the table: the block of one handle. Its numbers have 32 bits, so that a table takes half the memory.
#[repr(C)]
#[derive(Clone, Copy, Drop)]
pub struct Block {
    /// Where it begins: its offset from the buffer's start.
    pub offset: u32,
    /// The number of its bytes. It takes that number, rounded up. 0 where the handle has no block.
    pub size: u32,
}

/// The least multiple of 4 not below `n`.
pub fn rounded(n: usize) -> usize
    requires { up4 n < 2 ^ 64 }
    ensures { result ≡ up4 n }
{
    (n + 3) / 4 * 4
}

/// Whether `n` bytes, rounded up, are no more than `room`.
pub fn fits(n: usize, room: usize) -> bool
    ensures fits { result ≡ true → up4 n ≤ room }
    ensures over { result ≡ false → room < up4 n }
{
    n <= room && (4 - n % 4) % 4 <= room - n
}
