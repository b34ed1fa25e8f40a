//! The chunk of a name, and walks over the chunks, from the lowest on.

ghost use Rattle.std.specs.Prelude.{◌≡◌, ◌≤◌, ◌<◌, ◌+◌, find, Some, None, IsSome, IfSome};
ghost use Rattle.std.specs.Option.{option_map, option_map_or};
ghost use Rattle.heap_core.specs.HeapStore.{stats_of, find_block, best_gap, gaps, place, room_in_place};
ghost use Rattle.heap_core.specs.Code.FreeList.{Stands, LiveIn, gaps_among};
ghost use Rattle.heap_core.specs.Code.ChunkRanges.{chunks_behind};
ghost use Rattle.heap_core.specs.Code.FreeBytes.{free_from, front_gap};
ghost use Rattle.heap_core.specs.Code.Owners.{owned_by, Owned};
ghost use Rattle.heap_core.specs.Code.PlacedBlocks.{block_in_chunk, place_in_chunk};

use crate::chunk::{
    Candidate, Chunk, Fit, NO_LENGTH, NOWHERE, Place, Target, fit_of, is_gap, is_live, least_room,
    link_word, room_taken, shorter,
};
use crate::region::Region;
use arena_core::Arena;
use mote_types::reply::HeapStats;

impl Region {
    ghost use Rattle.heap_core.specs.declared.chunk.Gap.{Gap as OfGaps};
    ghost use Rattle.heap_core.specs.Code.Layout.{chunks_of, store_of, HasChunks};
    ghost use Rattle.heap_core.specs.Code.Links.{HasGapList, gap_below, gap_from, place_below, Starts};
    ghost use Rattle.heap_core.specs.Code.HeapBytes.{heap_of, IsLaidOut};

    /// The chunk of a name's block.
    pub(crate) fn find(&self, arena: &Arena, name: u32) -> Option<Chunk>
        requires laid_out { IsLaidOut self.now arena.now.bytes }
        requires name { name < 272 }
        ensures { result ≡ find (owned_by name) (chunks_of self.now arena.now.bytes) }
    {
        let at = self.places.get(name as usize)?;
        Some(self.chunk_at(arena, at))
    }

    /// Where a walk to a position begins: at the gap after a name's block, if there is one below the position, else at the lowest.
    pub(crate) fn start_below(&self, arena: &Arena, at: u32, name: u32) -> Option<u32>
        requires laid_out { IsLaidOut self.now arena.now.bytes }
        requires name { name < 272 }
        ensures { Starts self.now arena.now.bytes at result }
    {
        let Some(other) = self.find(arena, name) else {
            return self.lowest;
        };
        let end = other.at + other.len;
        if end >= at || self.gap_after(arena, other) == 0 {
            return self.lowest;
        }
        Some(end)
    }

    /// The chunk of a live block.
    pub(crate) fn live_chunk(&self, arena: &Arena, name: u32) -> Chunk
        requires laid_out { IsLaidOut self.now arena.now.bytes }
        requires name { name < 272 }
        requires live { IsSome (find_block name (heap_of self.now arena.now.bytes)) }
        ensures owned { Owned name result (chunks_of self.now arena.now.bytes) }
        ensures inside { result.at + self.now.header + result.size ≤ self.now.span.len }
        ensures block { find_block name (heap_of self.now arena.now.bytes)
            ≡ Some (block_in_chunk self.now.header arena.now.bytes self.now.span.at name result) }
    {
        self.find(arena, name).unwrap()
    }

    /// The shortest gap below the top gap that has `need` bytes, the lowest on a tie. No gap above one that fits exactly is
    /// looked at.
    pub(crate) fn best_gap(&self, arena: &Arena, need: u64) -> Fit
        requires gaps { HasGapList self.now arena.now.bytes }
        ensures gap { result.gap ≡ best_gap need (gaps (store_of self.now arena.now.bytes)) }
        ensures below { result.below ≡ place_below (option_map_or (λ (gap : OfGaps). gap.at) result.gap self.now.footprint)
            (gaps_among (chunks_of self.now arena.now.bytes)) }
    {
        let bytes = self.bytes(arena);
        let mut best = Candidate {
            at: NOWHERE as usize,
            len: NO_LENGTH,
            below: NOWHERE as usize,
        };
        let mut last = NOWHERE as usize;
        let mut next = link_word(self.lowest) as usize;
        while next != NOWHERE as usize {
            let len = self.len_told(arena, bytes, next) as u64;
            if len >= need {
                best = shorter(
                    best,
                    Candidate {
                        at: next,
                        len,
                        below: last,
                    },
                );
                if len == need {
                    return fit_of(best, last);
                }
            }
            last = next;
            next = self.next_word(arena, bytes, next);
        }
        fit_of(best, last)
    }

    /// The bytes that the live blocks take, and what is left of the span.
    pub(crate) fn stats(&self, arena: &Arena) -> HeapStats
        requires { HasChunks self.now arena.now.bytes }
        ensures { result ≡ stats_of (heap_of self.now arena.now.bytes) }
    {
        let mut allocated = 0;
        let mut chunks = 0;
        let mut footprint = 0;
        let mut at = 0;
        while at < self.footprint {
            let chunk = self.chunk_at(arena, at);
            at += chunk.len;
            if is_live(chunk) {
                allocated += chunk.len - self.header;
                chunks += 1;
                footprint = at;
            }
        }
        let overhead = self.header * chunks;
        HeapStats {
            allocated,
            overhead,
            available: self.span.len - allocated - overhead,
            footprint,
            chunks,
        }
    }

    /// Where a block of `n` bytes goes.
    pub(crate) fn place(&self, arena: &Arena, n: u32) -> Option<Target>
        requires gaps { HasGapList self.now arena.now.bytes }
        ensures place { option_map (λ target. target.place) result ≡ place n (store_of self.now arena.now.bytes) }
        ensures below { IfSome result
            (λ target. target.below ≡ place_below target.place.at (gaps_among (chunks_of self.now arena.now.bytes))) }
    {
        let room = least_room(self.header, n);
        let need = self.header as u64 + room;
        let fit = self.best_gap(arena, need);
        match fit.gap {
            Some(gap) => Some(Target {
                place: Place {
                    at: gap.at,
                    room: room_taken(room as u32, gap.len - self.header),
                },
                below: fit.below,
            }),
            None if need <= (self.span.len - self.footprint) as u64 => Some(Target {
                place: Place {
                    at: self.footprint,
                    room: room as u32,
                },
                below: fit.below,
            }),
            None => None,
        }
    }

    /// Where the free bytes begin that end where a chunk begins. `below` is the highest gap below it.
    pub(crate) fn free_before(&self, arena: &Arena, chunk: Chunk, below: Option<Chunk>) -> u32
        requires gaps { HasGapList self.now arena.now.bytes }
        requires stands { Stands chunk (chunks_of self.now arena.now.bytes) }
        requires below { below ≡ gap_below chunk.at (gaps_among (chunks_of self.now arena.now.bytes)) }
        ensures { result ≡ free_from chunk.at below }
    {
        match below {
            Some(gap) if gap.at + gap.len == chunk.at => gap.at,
            _ => chunk.at,
        }
    }

    /// The length of the gap below the top gap that is directly after a chunk, 0 where there is none.
    pub(crate) fn gap_after(&self, arena: &Arena, chunk: Chunk) -> u32
        requires chunks { HasChunks self.now arena.now.bytes }
        requires stands { Stands chunk (chunks_of self.now arena.now.bytes) }
        ensures { result ≡ front_gap (chunks_behind self.now arena.now.bytes (chunk.at + chunk.len)) }
    {
        let end = chunk.at + chunk.len;
        if end == self.footprint {
            return 0;
        }
        let following = self.chunk_at(arena, end);
        if is_gap(following) { following.len } else { 0 }
    }

    /// The position of the lowest gap from the end of the free bytes after a live chunk on. `next` is that of the lowest
    /// gap after the chunk.
    pub(crate) fn link_after(
        &self,
        arena: &Arena,
        chunk: Chunk,
        end: u32,
        next: Option<u32>,
    ) -> Option<u32>
        requires gaps { HasGapList self.now arena.now.bytes }
        requires live { LiveIn chunk (chunks_of self.now arena.now.bytes) }
        requires end { end ≡ chunk.at + chunk.len + front_gap (chunks_behind self.now arena.now.bytes (chunk.at + chunk.len)) }
        requires next { next ≡ gap_from chunk.at (gaps_among (chunks_of self.now arena.now.bytes)) }
        ensures { result ≡ gap_from end (gaps_among (chunks_of self.now arena.now.bytes)) }
    {
        let following = chunk.at + chunk.len;
        if following == end {
            return next;
        }
        self.chunk_at(arena, following).link
    }

    /// The room that a live chunk has once it is resized to `n` bytes where it is. `None` where it can't be.
    pub(crate) fn room_in_place(&self, arena: &Arena, chunk: Chunk, n: u32) -> Option<u32>
        requires chunks { HasChunks self.now arena.now.bytes }
        requires live { LiveIn chunk (chunks_of self.now arena.now.bytes) }
        ensures { result ≡ room_in_place (place_in_chunk self.now.header chunk) n (store_of self.now arena.now.bytes) }
    {
        let least = least_room(self.header, n);
        let room = chunk.len - self.header;
        if least <= room as u64 {
            return Some(room_taken(least as u32, room));
        }
        if chunk.at + chunk.len == self.footprint {
            let most = room + (self.span.len - self.footprint);
            return if least <= most as u64 {
                Some(least as u32)
            } else {
                None
            };
        }
        let most = room + self.gap_after(arena, chunk);
        if least <= most as u64 {
            Some(room_taken(least as u32, most))
        } else {
            None
        }
    }
}
