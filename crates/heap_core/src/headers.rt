//! Reads and writes headers, and the bytes after them.

ghost use Rattle.std.specs.Prelude.{◌≡◌, ◌+◌, ◌-◌, ◌≤◌, ◌<◌, ◌⊎◌, true, None, Some, IfSome, false, length, slice_range};
ghost use Rattle.std.specs.Int.{from_le_bytes};
ghost use mir.Syntax.{w32};
ghost use Rattle.arena_core.specs.Code.Outside.{ChangesOnly};
ghost use Rattle.mote_types.specs.Bytes.{resized};
ghost use Rattle.heap_core.specs.Code.Chunks.{chunk_at, is_a_name, place_in_link, word_at};
ghost use Rattle.heap_core.specs.Code.PlacedBlocks.{bytes_in_chunk, bytes_given};

use crate::chunk::{Chunk, FREED, is_a_name, link_told, link_word, owned_word, owner_in, size_in};
use crate::region::Region;
use arena_core::{Arena, Span};

/// The number in 4 bytes, the low byte first.
fn number_of_bytes(run: &[u8]) -> u32
    requires { length run.now ≡ 4 }
    ensures { result ≡ from_le_bytes w32 run.now }
{
    u32::from_le_bytes([run[0], run[1], run[2], run[3]])
}

/// Writes a word at an offset of the arena.
#[inline(always)]
fn put_word(arena: &mut Arena, at: u32, word: u32)
    requires { at + 4 ≤ length arena.old.bytes }
    ensures here { word_at arena.new.bytes at ≡ word }
    ensures others { ChangesOnly at 4 arena.old.bytes arena.new.bytes }
    ensures carved { arena.new.carved ≡ arena.old.carved }
{
    arena.put_word(at, word);
}

/// The word at an offset of these bytes.
fn word_in(bytes: &[u8], at: usize) -> u32
    requires { at + 4 ≤ length bytes.now }
    ensures { result ≡ word_at bytes.now at }
{
    number_of_bytes(&bytes[at..at + 4])
}

impl Region {
    ghost use Rattle.heap_core.specs.Code.HeapBytes.{IsWithin};
    ghost use Rattle.heap_core.specs.Code.Links.{IsLink};

    /// The chunk at an offset, as its header describes it.
    pub(crate) fn chunk_at(&self, arena: &Arena, at: u32) -> Chunk
        requires within { IsWithin self.now arena.now.bytes }
        requires inside { at + 12 ≤ self.now.span.len }
        ensures { result ≡ chunk_at arena.now.bytes self.now.span.at at }
    {
        let header = self.span.at + at;
        let second = arena.word(header + 4);
        let owner = owner_in(second);
        let link = if is_a_name(owner) {
            None
        } else {
            link_told(arena.word(header + 8))
        };
        Chunk {
            at,
            len: arena.word(header),
            owner,
            size: size_in(second),
            link,
        }
    }

    /// The chunk at an offset, which was freed and is not joined yet.
    pub(crate) fn freed_chunk(&self, arena: &Arena, at: u32) -> Chunk
        requires within { IsWithin self.now arena.now.bytes }
        requires inside { at + 12 ≤ self.now.span.len }
        requires freed { (chunk_at arena.now.bytes self.now.span.at at).owner ≡ Some FREED }
        ensures { result ≡ chunk_at arena.now.bytes self.now.span.at at }
    {
        let header = self.span.at + at;
        Chunk {
            at,
            len: arena.word(header),
            owner: Some(FREED),
            size: size_in(arena.word(header + 4)),
            link: link_told(arena.word(header + 8)),
        }
    }

    /// The length in the header at an offset.
    pub(crate) fn len_at(&self, arena: &Arena, at: u32) -> u32
        requires within { IsWithin self.now arena.now.bytes }
        requires inside { at + 12 ≤ self.now.span.len }
        ensures { result ≡ (chunk_at arena.now.bytes self.now.span.at at).len }
    {
        arena.word(self.span.at + at)
    }

    /// The bytes of the span. A walk takes them once: then a word of a header is read by one instruction.
    pub(crate) fn bytes<'a>(&self, arena: &'a Arena) -> &'a [u8]
        requires { IsWithin self.now arena.now.bytes }
        ensures { result.now ≡ slice_range arena.now.bytes self.now.span.at (self.now.span.at + self.now.span.len) }
    {
        arena.bytes(self.span)
    }

    /// The word for the link of the free chunk at an offset. `bytes` are those of the span.
    pub(crate) fn next_word(&self, arena: &Arena, bytes: &[u8], at: usize) -> usize
        requires within { IsWithin self.now arena.now.bytes }
        requires bytes { bytes.now ≡ slice_range arena.now.bytes self.now.span.at (self.now.span.at + self.now.span.len) }
        requires inside { at + 12 ≤ self.now.span.len }
        requires free { is_a_name (chunk_at arena.now.bytes self.now.span.at at).owner ≡ false }
        ensures link { place_in_link result ≡ (chunk_at arena.now.bytes self.now.span.at at).link }
        ensures small { result < 4294967296 }
    {
        word_in(bytes, at + 8) as usize
    }

    /// The length of the chunk at an offset. `bytes` are those of the span.
    pub(crate) fn len_told(&self, arena: &Arena, bytes: &[u8], at: usize) -> u32
        requires within { IsWithin self.now arena.now.bytes }
        requires bytes { bytes.now ≡ slice_range arena.now.bytes self.now.span.at (self.now.span.at + self.now.span.len) }
        requires inside { at + 12 ≤ self.now.span.len }
        ensures { result ≡ (chunk_at arena.now.bytes self.now.span.at at).len }
    {
        word_in(bytes, at)
    }

    /// The part of the arena that holds a live block's bytes: those after its header.
    pub(crate) fn body(&self, chunk: Chunk) -> Span
        requires { chunk.at + self.now.header + chunk.size ≤ self.now.span.len }
        ensures at { result.at ≡ self.now.span.at + chunk.at + self.now.header }
        ensures len { result.len ≡ chunk.size }
    {
        Span {
            at: self.span.at + chunk.at + self.header,
            len: chunk.size,
        }
    }

    /// Writes a chunk's header at its offset, and a free chunk's link after its first two words: with headers of 8 bytes that is the
    /// front of its room. A live chunk's bytes are unchanged.
    pub(crate) fn put_chunk(&self, arena: &mut Arena, chunk: Chunk)
        requires within { IsWithin self.now arena.old.bytes }
        requires inside { chunk.at + 12 ≤ self.now.span.len }
        requires owner { IfSome chunk.owner (λ name. name ≤ 272) }
        requires size { chunk.size < 65536 }
        requires link { IsLink chunk.link }
        requires live { is_a_name chunk.owner ≡ true → chunk.link ≡ None }
        ensures chunk { chunk_at arena.new.bytes self.now.span.at chunk.at ≡ chunk }
        ensures others { ChangesOnly (self.now.span.at + chunk.at) 12 arena.old.bytes arena.new.bytes }
        ensures live { is_a_name chunk.owner ≡ true → ChangesOnly (self.now.span.at + chunk.at) 8 arena.old.bytes arena.new.bytes }
        ensures carved { arena.new.carved ≡ arena.old.carved }
    {
        let header = self.span.at + chunk.at;
        put_word(arena, header, chunk.len);
        put_word(arena, header + 4, owned_word(chunk.owner, chunk.size));
        if is_a_name(chunk.owner) {
            return;
        }
        put_word(arena, header + 8, link_word(chunk.link));
    }

    /// The link of the free chunk at an offset. No other word of it is read.
    pub(crate) fn link_at(&self, arena: &Arena, at: u32) -> Option<u32>
        requires within { IsWithin self.now arena.now.bytes }
        requires inside { at + 12 ≤ self.now.span.len }
        requires free { is_a_name (chunk_at arena.now.bytes self.now.span.at at).owner ≡ false }
        ensures { result ≡ (chunk_at arena.now.bytes self.now.span.at at).link }
    {
        link_told(arena.word(self.span.at + at + 8))
    }

    /// Links a gap to another one. No other word of its header is written.
    pub(crate) fn put_link(&self, arena: &mut Arena, gap: Chunk, link: Option<u32>)
        requires within { IsWithin self.now arena.old.bytes }
        requires inside { gap.at + 12 ≤ self.now.span.len }
        requires told { chunk_at arena.old.bytes self.now.span.at gap.at ≡ gap }
        requires free { gap.owner ≡ None }
        requires link { IsLink link }
        ensures chunk { chunk_at arena.new.bytes self.now.span.at gap.at ≡ record gap { link = link } }
        ensures others { ChangesOnly (self.now.span.at + gap.at) 12 arena.old.bytes arena.new.bytes }
        ensures carved { arena.new.carved ≡ arena.old.carved }
    {
        put_word(arena, self.span.at + gap.at + 8, link_word(link));
    }

    /// Writes zeros over a live block's bytes from `from` on, if it has any there.
    pub(crate) fn clear(&self, arena: &mut Arena, live: Chunk, from: u32)
        requires within { IsWithin self.now arena.old.bytes }
        requires inside { live.at + self.now.header + live.size ≤ self.now.span.len }
        requires before { live.at + self.now.header + from ≤ self.now.span.len }
        ensures bytes { bytes_in_chunk self.now.header arena.new.bytes self.now.span.at live ≡ resized live.size
            (slice_range arena.old.bytes (self.now.span.at + live.at + self.now.header)
            (self.now.span.at + live.at + self.now.header + from)) }
        ensures others { ChangesOnly (self.now.span.at + live.at + self.now.header) live.size arena.old.bytes arena.new.bytes }
        ensures carved { arena.new.carved ≡ arena.old.carved }
    {
        if live.size <= from {
            return;
        }
        arena.fill(
            Span {
                at: self.span.at + live.at + self.header + from,
                len: live.size - from,
            },
            0,
        );
    }

    /// Writes a new block's bytes: first those of another block, if one is named, and then zeros.
    pub(crate) fn give_bytes(&self, arena: &mut Arena, live: Chunk, source: Option<Chunk>)
        requires within { IsWithin self.now arena.old.bytes }
        requires inside { live.at + self.now.header + live.size ≤ self.now.span.len }
        requires source { IfSome source (λ other. other.at + self.now.header + other.size ≤ self.now.span.len) }
        requires apart { IfSome source (λ other. (other.at + self.now.header + other.size ≤ live.at)
            ⊎ (live.at + self.now.header + live.size ≤ other.at)) }
        ensures bytes { bytes_in_chunk self.now.header arena.new.bytes self.now.span.at live ≡ resized live.size
            (bytes_given self.now.header arena.old.bytes self.now.span.at source) }
        ensures others { ChangesOnly (self.now.span.at + live.at + self.now.header) live.size arena.old.bytes arena.new.bytes }
        ensures carved { arena.new.carved ≡ arena.old.carved }
    {
        self.clear(arena, live, 0);
        let Some(source) = source else {
            return;
        };
        arena.copy(
            self.span.at + source.at + self.header,
            self.span.at + live.at + self.header,
            source.size.min(live.size),
        );
    }
}
