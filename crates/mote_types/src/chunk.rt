//! The bytes of one read, write or print, and functions that build them.

ghost use Rattle.std.specs.Prelude.{◌≡◌, ◌≤◌, ◌+◌, ◌++◌, ◌↔◌, [], ◌∷◌, true, length, take, decimal, bytes_eq};

use crate::reply::Chunk;
use itoa::Buffer;

/// The number of bytes in a chunk.
const ROOM: usize = 64;

/// These bytes as a chunk: only the first 64, if there are more.
#[tactic(auto, using(std::proofs::lemmas::List::take_min))]
pub fn chunk_of(bytes: &[u8]) -> Chunk
    ensures front { result.items ≡ take 64 bytes.now }
    ensures whole { length bytes.now ≤ 64 → result.items ≡ bytes.now }
{
    let (front, _) = bytes.split_at(ROOM.min(bytes.len()));
    let mut chunk = Chunk::new();
    let _ = chunk.try_extend_from_slice(front);
    chunk
}

/// Appends these bytes.
pub fn push_bytes(chunk: &mut Chunk, bytes: &[u8])
    requires { length chunk.old.items + length bytes.now ≤ 64 }
    ensures { chunk.new.items ≡ chunk.old.items ++ bytes.now }
{
    let _ = chunk.try_extend_from_slice(bytes);
}

/// Appends this number in decimal, which has at most 10 digits.
pub fn push_decimal(chunk: &mut Chunk, number: u32)
    requires { length chunk.old.items + 10 ≤ 64 }
    ensures digits { chunk.new.items ≡ chunk.old.items ++ decimal number }
    ensures few { length chunk.new.items ≤ length chunk.old.items + 10 }
{
    push_bytes(chunk, Buffer::new().format(number).as_bytes());
}

/// This number in decimal and a line end, as for a print: 25 becomes the bytes of `25\n`.
pub fn number_line(number: u32) -> Chunk
    ensures { result.items ≡ decimal number ++ 10 ∷ [] }
{
    let mut chunk = Chunk::new();
    push_decimal(&mut chunk, number);
    push_bytes(&mut chunk, b"\n");
    chunk
}

/// Whether these are the same bytes, as a command from the serial line and its name.
pub fn same_bytes(left: &[u8], right: &[u8]) -> bool
    ensures test { result ≡ bytes_eq left.now right.now }
    ensures same { (result ≡ true) ↔ (left.now ≡ right.now) }
{
    left == right
}
