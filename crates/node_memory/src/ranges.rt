//! Ranges of a block's bytes that are read or written.

ghost use Rattle.std.specs.Prelude.{◌≡◌, ◌≤◌, ◌+◌, length, nat_lt};
ghost use Rattle.mote_types.specs.Bytes.{range_of};

use mote_types::reply::Chunk;

/// The most bytes of one read.
pub const LONGEST_READ: u8 = 64;

/// Whether the range ends after the end of a block of this length.
pub fn is_outside(at: u32, len: usize, block: usize) -> bool
    requires { len ≤ 64 }
    ensures { result ≡ nat_lt block (at + len) }
{
    at as u64 + len as u64 > block as u64
}

/// The `len` bytes from offset `at` on.
pub fn range_in(bytes: &[u8], at: u32, len: u8) -> &[u8]
    requires { at + len ≤ length bytes.now }
    ensures range { result.now ≡ range_of at len bytes.now }
    ensures length { length result.now ≡ len }
{
    &bytes[at as usize..at as usize + len as usize]
}

/// These bytes, for a reply.
pub fn chunk_of(bytes: &[u8]) -> Chunk
    requires { length bytes.now ≤ 64 }
    ensures { result.items ≡ bytes.now }
{
    let mut chunk = Chunk::new();
    let _ = chunk.try_extend_from_slice(bytes);
    chunk
}
