//! Where a heap's chunks are.

ghost use Rattle.std.specs.Prelude.{◌≡◌, ◌≤◌, ◌%◌};

use crate::place_table::PlaceTable;
use arena_core::Span;

/// The span of a heap, the length of its headers, how much of it is divided into chunks, and where the chunk of each name's
/// block begins. All other data is in the headers.
#[derive(Drop)]
pub struct Region {
    pub span: Span,
    /// The length of a header, 16 or 8. It precedes each chunk's bytes.
    pub header: u32,
    /// The end of the highest chunk. What is above it is the top gap.
    pub footprint: u32,
    /// For each live name the position of its chunk, by the name's number.
    pub places: PlaceTable,
    /// The chunk that was freed last, of those that are not joined yet. Each is linked to the one freed before it.
    pub newest: Option<u32>,
    /// Their number.
    pub freed: u16,
    /// The lowest gap. Each is linked to the next higher one.
    pub lowest: Option<u32>,
    /// The number of gaps.
    pub gaps: u16,
    pub ghost header_least: { 8 ≤ header },
    pub ghost header_most: { header ≤ 16 },
    pub ghost header_whole: { header % 8 ≡ 0 },
    pub ghost small: { span.len ≤ 65536 },
    pub ghost inside: { footprint ≤ span.len },
}
