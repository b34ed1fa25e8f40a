//! Chunks and gaps, and how much of which gap a block takes.

ghost use Rattle.std.specs.Prelude.{◌≡◌, ◌≤◌, ◌<◌, IfSome, is_none, nat_lt, if◌then◌else◌, ◌==◌};
ghost use Rattle.heap_core.specs.HeapStore.{least_room, room_taken};
ghost use Rattle.heap_core.specs.Code.Chunks.{number_in, owner_in, place_in_link, size_in, is_a_name};
ghost use Rattle.heap_core.specs.Code.Links.{gap_count, gap_found, IsLink};

use mote_types::rounding::rounded;

/// The owner of a chunk that was freed and is not joined yet. No name has that number.
pub(crate) const FREED: u32 = 272;

/// The longest rest of a gap that is left to the block.
const LONGEST_REST: u32 = 16;

/// One more than half a word can encode.
const HALF: u32 = 65536;

/// The word of a link that leads nowhere. It is above each position, so a walk up to a position ends there without an extra test.
pub(crate) const NOWHERE: u32 = u32::MAX;

/// The length of no gap: each one is shorter.
pub(crate) const NO_LENGTH: u64 = 1 << 32;

/// What a header describes: a live block or a gap, from offset `at` of the region on.
#[derive(Clone, Copy, Drop)]
pub struct Chunk {
    pub at: u32,
    /// With its header.
    pub len: u32,
    /// The number of the block's name, or `FREED`. A gap has none.
    pub owner: Option<u32>,
    /// The number of bytes that were asked for, 0 for a gap.
    pub size: u32,
    /// The position of the next chunk in the list that a free chunk is in. A live block has none: its bytes may be where a free
    /// chunk has its link.
    pub link: Option<u32>,
}

/// A run of the region that no block covers.
#[derive(Clone, Copy, Drop)]
pub struct Gap {
    pub at: u32,
    pub len: u32,
}

/// The gap that a search has found so far: where it begins, its length, and the word for the highest gap below it. Its length is
/// `NO_LENGTH` where there is none yet.
#[derive(Clone, Copy, Drop)]
pub struct Candidate {
    pub at: usize,
    pub len: u64,
    pub below: usize,
}

/// What a search has found.
#[derive(Clone, Copy, Drop)]
pub struct Fit {
    pub gap: Option<Gap>,
    /// Where the highest gap below that one begins, or below the top gap where none was found.
    pub below: Option<u32>,
}

/// Where a block goes, and where the highest gap below it begins.
#[derive(Clone, Copy, Drop)]
pub struct Target {
    pub place: Place,
    pub below: Option<u32>,
}

/// Where a block goes: its header to `at`, and `room` bytes after that.
#[derive(Clone, Copy, Drop)]
pub struct Place {
    pub at: u32,
    pub room: u32,
}

/// Where free bytes end.
#[derive(Clone, Copy, Drop)]
pub struct FreeEnd {
    pub at: u32,
    /// The position of the lowest gap from there on.
    pub link: Option<u32>,
}

/// The room that a block of `n` bytes needs after a header of that length.
pub(crate) fn least_room(header: u32, n: u32) -> u64
    ensures { result ≡ least_room header n }
{
    rounded(n).max(if header == 16 { 4 } else { 8 })
}

/// The room that a block takes of that much: what is left stays a gap only where it exceeds 16.
pub(crate) fn room_taken(least: u32, available: u32) -> u32
    requires { least ≤ available }
    ensures { result ≡ room_taken least available }
{
    if available - least > LONGEST_REST {
        least
    } else {
        available
    }
}

/// The number of gaps that `n` free bytes below the top gap make: one, or none where there are no bytes.
pub(crate) fn gap_count(len: u32) -> u16
    ensures { result ≡ gap_count len }
{
    if len == 0 { 0 } else { 1 }
}

/// The shorter of the gap found before and this one. The one found before on a tie.
pub(crate) fn shorter(best: Candidate, gap: Candidate) -> Candidate
    ensures { result ≡ (if nat_lt gap.len best.len then gap else best) }
{
    if gap.len < best.len { gap } else { best }
}

/// What a search has found at its end, where `last` is the word for the last gap that it passed.
pub(crate) fn fit_of(best: Candidate, last: usize) -> Fit
    requires at { best.at < 4294967296 }
    requires len { best.len ≤ NO_LENGTH }
    requires below { best.below < 4294967296 }
    requires last { last < 4294967296 }
    ensures gap { result.gap ≡ gap_found best }
    ensures below { result.below ≡ place_in_link (if best.len == NO_LENGTH then last else best.below) }
{
    if best.len == NO_LENGTH {
        return Fit {
            gap: None,
            below: link_told(last as u32),
        };
    }
    Fit {
        gap: Some(Gap {
            at: best.at as u32,
            len: best.len as u32,
        }),
        below: link_told(best.below as u32),
    }
}

/// Whether a chunk is a gap.
pub(crate) fn is_gap(chunk: Chunk) -> bool
    ensures { result ≡ is_none chunk.owner }
{
    chunk.owner.is_none()
}

/// Whether an owner is a name.
pub(crate) fn is_a_name(owner: Option<u32>) -> bool
    ensures { result ≡ is_a_name owner }
{
    match owner {
        Some(name) => name < FREED,
        None => false,
    }
}

/// Whether a chunk is a live block.
pub(crate) fn is_live(chunk: Chunk) -> bool
    ensures { result ≡ is_a_name chunk.owner }
{
    is_a_name(chunk.owner)
}

/// The half of a word for an owner.
fn word_of(owner: Option<u32>) -> u32
    requires { IfSome owner (λ n. n < 65535) }
    ensures number { number_in result ≡ owner }
    ensures half { result < 65536 }
{
    match owner {
        Some(n) => n + 1,
        None => 0,
    }
}

/// The word for a link.
pub(crate) fn link_word(link: Option<u32>) -> u32
    requires { IsLink link }
    ensures { place_in_link result ≡ link }
{
    match link {
        Some(place) => place,
        None => NOWHERE,
    }
}

/// The link that a word encodes.
pub(crate) fn link_told(word: u32) -> Option<u32>
    ensures { result ≡ place_in_link word }
{
    if word == NOWHERE { None } else { Some(word) }
}

/// The owner that half a word encodes.
fn number_in(word: u32) -> Option<u32>
    ensures { result ≡ number_in word }
{
    if word == 0 { None } else { Some(word - 1) }
}

/// The word for an owner and a size: the owner in its low half, and the size in the high one.
pub(crate) fn owned_word(owner: Option<u32>, size: u32) -> u32
    requires owner { IfSome owner (λ n. n < 65535) }
    requires size { size < 65536 }
    ensures owner { owner_in result ≡ owner }
    ensures size { size_in result ≡ size }
{
    size * HALF + word_of(owner)
}

/// The owner that such a word encodes.
pub(crate) fn owner_in(word: u32) -> Option<u32>
    ensures { result ≡ owner_in word }
{
    number_in(word % HALF)
}

/// The size that such a word encodes.
pub(crate) fn size_in(word: u32) -> u32
    ensures { result ≡ size_in word }
{
    word / HALF
}
