//! The gaps beside a position, found along the links from the lowest gap on.

ghost use Rattle.std.specs.Prelude.{◌≡◌};
ghost use Rattle.heap_core.specs.Code.FreeList.{gaps_among};
ghost use Rattle.heap_core.specs.Code.Links.{HasGapList, gap_below, gap_from, place_below, Starts};

use crate::chunk::{Chunk, NOWHERE, link_told, link_word};
use crate::region::Region;
use arena_core::Arena;

/// The gaps beside a position.
#[derive(Clone, Copy, Drop)]
pub struct Beside {
    /// The highest gap below it.
    pub below: Option<Chunk>,
    /// Where the lowest gap from there on begins.
    pub next: Option<u32>,
}

impl Region {
    ghost use Rattle.heap_core.specs.Code.Layout.{chunks_of};
    ghost use Rattle.std.specs.Prelude.{None};

    /// The gaps beside a position.
    pub(crate) fn gaps_beside(&self, arena: &Arena, at: u32) -> Beside
        requires gaps { HasGapList self.now arena.now.bytes }
        ensures below { result.below ≡ gap_below at (gaps_among (chunks_of self.now arena.now.bytes)) }
        ensures next { result.next ≡ gap_from at (gaps_among (chunks_of self.now arena.now.bytes)) }
    {
        self.gaps_from(arena, at, self.lowest)
    }

    /// The same, by a walk that begins at `start`.
    pub(crate) fn gaps_from(&self, arena: &Arena, at: u32, start: Option<u32>) -> Beside
        requires gaps { HasGapList self.now arena.now.bytes }
        requires start { Starts self.now arena.now.bytes at start }
        ensures below { result.below ≡ gap_below at (gaps_among (chunks_of self.now arena.now.bytes)) }
        ensures next { result.next ≡ gap_from at (gaps_among (chunks_of self.now arena.now.bytes)) }
    {
        let (below, next) = self.places_beside(arena, at, start);
        let below = self.gap_told(arena, at, below);
        Beside { below, next }
    }

    /// The highest gap below a position, where it begins at `below`.
    pub(crate) fn gap_told(&self, arena: &Arena, at: u32, below: Option<u32>) -> Option<Chunk>
        requires gaps { HasGapList self.now arena.now.bytes }
        requires below { below ≡ place_below at (gaps_among (chunks_of self.now arena.now.bytes)) }
        ensures { result ≡ gap_below at (gaps_among (chunks_of self.now arena.now.bytes)) }
    {
        match below {
            Some(place) => Some(self.chunk_at(arena, place)),
            None => None,
        }
    }

    /// The highest gap below a position, where `known` is the highest one below offset `at`.
    pub(crate) fn gap_below(
        &self,
        arena: &Arena,
        place: u32,
        at: u32,
        known: Option<Chunk>,
    ) -> Option<Chunk>
        requires gaps { HasGapList self.now arena.now.bytes }
        requires known { known ≡ gap_below at (gaps_among (chunks_of self.now arena.now.bytes)) }
        ensures { result ≡ gap_below place (gaps_among (chunks_of self.now arena.now.bytes)) }
    {
        if place == at {
            known
        } else {
            self.gaps_beside(arena, place).below
        }
    }

    /// Where the highest gap below a position begins, and the lowest one from there on. No gap above that one is looked at.
    fn places_beside(
        &self,
        arena: &Arena,
        at: u32,
        start: Option<u32>,
    ) -> (Option<u32>, Option<u32>)
        requires gaps { HasGapList self.now arena.now.bytes }
        requires start { Starts self.now arena.now.bytes at start }
        ensures below { result.0 ≡ place_below at (gaps_among (chunks_of self.now arena.now.bytes)) }
        ensures next { result.1 ≡ gap_from at (gaps_among (chunks_of self.now arena.now.bytes)) }
    {
        let bytes = self.bytes(arena);
        let end = at as usize;
        let mut below = NOWHERE as usize;
        let mut next = link_word(start) as usize;
        // Two gaps a turn, so that the last two positions swap roles without a copy.
        while next < end {
            below = self.next_word(arena, bytes, next);
            if below >= end {
                return (link_told(next as u32), link_told(below as u32));
            }
            next = self.next_word(arena, bytes, below);
        }
        (link_told(below as u32), link_told(next as u32))
    }
}
