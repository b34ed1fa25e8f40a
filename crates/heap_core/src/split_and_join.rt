//! The steps of a call that change which chunks there are.

ghost use Rattle.std.specs.Prelude.{◌≡◌, ◌≢◌, ℕ, List, ◌+◌, ◌-◌, length, ◌≤◌, ◌<◌, true, Some, None, IfSome, IfNone, OnSome};
ghost use Rattle.std.specs.Option.{option_map};
ghost use Rattle.mote_types.specs.Bytes.{resized};
ghost use Rattle.arena_core.specs.Code.Outside.{ChangesOnly};
ghost use Rattle.heap_core.specs.HeapStore.{place, with_block, block_at, room_in_place};
ghost use Rattle.heap_core.specs.Code.Chunks.{is_a_name};
ghost use Rattle.heap_core.specs.Code.FreeList.{Stands, LiveIn, LinkedTo, gaps_among, FreedLinked};
ghost use Rattle.heap_core.specs.Code.Owners.{Owned};
ghost use Rattle.heap_core.specs.Code.PlacedBlocks.{bytes_given, without_place, place_in_chunk, at_place, bytes_in_chunk};

use crate::chunk::{Chunk, FREED, FreeEnd, Place, Target, gap_count};
use crate::hints::Hints;
use crate::region::Region;
use arena_core::Arena;

impl Region {
    ghost use Rattle.heap_core.specs.declared.chunk.Chunk.{Chunk as OfChunks};
    ghost use Rattle.heap_core.specs.Code.Layout.{chunks_of, store_of, HasChunks};
    ghost use Rattle.heap_core.specs.Code.Links.{gap_count, gap_below, gap_from, place_below, Starts, LinkChanged, HasGapList, IsDivided, IsLink, KeepsFreed};
    ghost use Rattle.heap_core.specs.Code.Holes.{Cut, EndsHole, Fits, Laid, Leaves, Left, Room, ReachesWithGaps, Cleared};
    ghost use Rattle.heap_core.specs.Code.HeapBytes.{heap_of, IsWithin, IsLaidOut, KeepsToSpan};
    ghost use Rattle.heap_core.specs.Code.Joins.{Changed, Aside, Joins};

    /// Leaves free bytes: a gap up to a live chunk, which is linked to the next one, or a part of the top gap. Returns the position
    /// of the gap that the one before must be linked to.
    #[inline(always)]
    fn leave(&mut self, arena: &mut Arena, from: u32, end: u32, link: Option<u32>) -> Option<u32>
        requires within { IsWithin self.old arena.old.bytes }
        requires leaves { Leaves self.old from end }
        requires inside { (from ≤ self.old.span.len) × (end ≤ self.old.footprint) }
        requires link { IsLink link }
        requires few { self.old.gaps < 65535 }
        ensures left { Left self.old self.new arena.old.bytes arena.new.bytes from end result link }
        ensures kept { KeepsFreed self.old self.new }
        ensures lowest { self.new.lowest ≡ self.old.lowest }
        ensures first { IsLink result }
        ensures begins { end ≢ self.old.footprint → from ≢ end → result ≡ Some from }
        ensures rest { KeepsToSpan self.old self.new arena.old arena.new }
    {
        if end == self.footprint {
            self.footprint = from;
            return link;
        }
        if from == end {
            return link;
        }
        self.put_chunk(
            arena,
            Chunk {
                at: from,
                len: end - from,
                owner: None,
                size: 0,
                link,
            },
        );
        self.gaps += 1;
        Some(from)
    }

    /// Writes a live chunk's header at the front of the free bytes up to `end`, and leaves the others free. Returns the position of
    /// the gap that the one before must be linked to.
    #[inline(always)]
    fn lay(&mut self, arena: &mut Arena, live: Chunk, end: u32, link: Option<u32>) -> Option<u32>
        requires within { IsWithin self.old arena.old.bytes }
        requires fits { Fits self.old live end }
        requires link { IsLink link }
        requires few { self.old.gaps < 65535 }
        ensures laid { (bytes : List ℕ) (cut : Cut self.old bytes live.at end live.at) → EndsHole cut.behind
            → ChangesOnly (self.old.span.at + live.at) live.len bytes arena.old.bytes
            → Laid self.old self.new bytes arena.old.bytes arena.new.bytes live cut.before cut.behind result link }
        ensures kept { KeepsFreed self.old self.new }
        ensures lowest { self.new.lowest ≡ self.old.lowest }
        ensures first { IsLink result }
        ensures rest { KeepsToSpan self.old self.new arena.old arena.new }
    {
        let first = self.leave(arena, live.at + live.len, end, link);
        self.put_chunk(arena, live);
        first
    }

    /// Links the highest gap below a position, if there is one, to the gap that is the next one now.
    pub(crate) fn link_below(
        &mut self,
        arena: &mut Arena,
        before: Option<Chunk>,
        first: Option<u32>,
    )
        requires chunks { HasChunks self.old arena.old.bytes }
        requires before { IfSome before (λ gap. Stands gap (chunks_of self.old arena.old.bytes) × (gap.owner ≡ None)) }
        requires first { IsLink first }
        ensures relinked { LinkChanged self.old self.new arena.old.bytes arena.new.bytes before first }
        ensures kept { KeepsFreed self.old self.new }
        ensures rest { KeepsToSpan self.old self.new arena.old arena.new }
    {
        match before {
            Some(gap) => self.put_link(arena, gap, first),
            None => self.lowest = first,
        }
    }

    /// Where the free bytes end that begin at the position found for a block, and which gap is next.
    fn free_end(&self, arena: &Arena, target: Place, n: u32) -> FreeEnd
        requires gaps { HasGapList self.now arena.now.bytes }
        requires place { place n (store_of self.now arena.now.bytes) ≡ Some target }
        requires some { 1 ≤ n }
        ensures free { Room self.now arena.now.bytes target result.at n (gap_count (result.at - target.at))
            (store_of self.now arena.now.bytes).blocks }
        ensures along { target.at ≤ result.at }
        ensures link { result.link ≡ gap_from result.at (gaps_among (chunks_of self.now arena.now.bytes)) }
    {
        if target.at == self.footprint {
            return FreeEnd {
                at: target.at,
                link: None,
            };
        }
        FreeEnd {
            at: target.at + self.len_at(arena, target.at),
            link: self.link_at(arena, target.at),
        }
    }

    /// Puts a block of `n` bytes at the position that was found for it. It gets the bytes of a live chunk, if one is named, and
    /// zeros after them.
    #[inline(always)]
    pub(crate) fn put_block(
        &mut self,
        arena: &mut Arena,
        target: Target,
        name: u32,
        n: u32,
        source: Option<Chunk>,
    )
        requires divided { IsDivided self.old arena.old.bytes }
        requires place { place n (store_of self.old arena.old.bytes) ≡ Some target.place }
        requires below { target.below ≡ place_below target.place.at (gaps_among (chunks_of self.old arena.old.bytes)) }
        requires name { name < 272 }
        requires some { 1 ≤ n }
        requires source { IfSome source (λ other. LiveIn other (chunks_of self.old arena.old.bytes)) }
        ensures divided { IsDivided self.new arena.new.bytes }
        ensures block { store_of self.new arena.new.bytes
            ≡ with_block (block_at target.place name (resized n (bytes_given self.old.header arena.old.bytes self.old.span.at source)))
            (store_of self.old arena.old.bytes) }
        ensures stands { (other : OfChunks) → LiveIn other (chunks_of self.old arena.old.bytes)
            → LiveIn other (chunks_of self.new arena.new.bytes) }
        ensures kept { KeepsFreed self.old self.new }
        ensures rest { KeepsToSpan self.old self.new arena.old arena.new }
    {
        let Target { place, below } = target;
        let end = self.free_end(arena, place, n);
        let before = self.gap_told(arena, place.at, below);
        let live = Chunk {
            at: place.at,
            len: self.header + place.room,
            owner: Some(name),
            size: n,
            link: None,
        };
        self.give_bytes(arena, live, source);
        let first = self.lay(arena, live, end.at, end.link);
        self.link_below(arena, before, first);
        self.gaps -= gap_count(end.at - place.at);
    }

    /// Makes a chunk and the gaps beside it one gap, which is linked to the next one, or a part of the top gap. Returns the position
    /// of the gap that the one before must be linked to.
    fn clear_away(
        &mut self,
        arena: &mut Arena,
        chunk: Chunk,
        from: u32,
        end: u32,
        link: Option<u32>,
    ) -> Option<u32>
        requires chunks { HasChunks self.old arena.old.bytes }
        requires reach { ReachesWithGaps self.old arena.old.bytes chunk from end }
        requires link { IsLink link }
        requires count { self.old.gaps ≡ length (gaps_among (chunks_of self.old arena.old.bytes)) }
        requires few { self.old.gaps < 65535 }
        ensures cleared { Cleared self.old self.new arena.old.bytes arena.new.bytes chunk from end result link }
        ensures kept { KeepsFreed self.old self.new }
        ensures lowest { self.new.lowest ≡ self.old.lowest }
        ensures first { IsLink result }
        ensures begins { end ≢ self.old.footprint → result ≡ Some from }
        ensures rest { KeepsToSpan self.old self.new arena.old arena.new }
    {
        self.leave(arena, from, end, link)
    }

    /// Makes a chunk and the gaps beside it one gap, or a part of the top gap, and has the list of the gaps lead there. `below` is
    /// the highest gap below the chunk.
    #[inline(always)]
    fn merge(
        &mut self,
        arena: &mut Arena,
        chunk: Chunk,
        from: u32,
        end: u32,
        link: Option<u32>,
        below: Option<Chunk>,
    )
        requires divided { IsDivided self.old arena.old.bytes }
        requires reach { ReachesWithGaps self.old arena.old.bytes chunk from end }
        requires link { link ≡ gap_from end (gaps_among (chunks_of self.old arena.old.bytes)) }
        requires below { below ≡ gap_below chunk.at (gaps_among (chunks_of self.old arena.old.bytes)) }
        requires small { IsLink link }
        requires few { self.old.gaps < 65535 }
        ensures chunks { HasChunks self.new arena.new.bytes }
        ensures count { self.new.gaps ≡ length (gaps_among (chunks_of self.new arena.new.bytes)) +
            (gap_count (chunk.at - from) + gap_count (end - (chunk.at + chunk.len))) }
        ensures block { store_of self.new arena.new.bytes ≡ without_place chunk.at (store_of self.old arena.old.bytes) }
        ensures others { (other : OfChunks) → LiveIn other (chunks_of self.old arena.old.bytes) → other.at ≢ chunk.at
            → LiveIn other (chunks_of self.new arena.new.bytes) }
        ensures linked { LinkedTo self.new.lowest (chunks_of self.new arena.new.bytes) None }
        ensures kept { KeepsFreed self.old self.new }
        ensures rest { KeepsToSpan self.old self.new arena.old arena.new }
    {
        if from < chunk.at && end < self.footprint {
            // The gap below the chunk grows: what is linked to it stays so.
            let _first = self.clear_away(arena, chunk, from, end, link);
            return;
        }
        let before = self.gap_below(arena, from, chunk.at, below);
        let first = self.clear_away(arena, chunk, from, end, link);
        self.link_below(arena, before, first);
    }

    /// Makes a chunk a gap, and joins it with the gaps beside it.
    #[inline(always)]
    fn release(&mut self, arena: &mut Arena, chunk: Chunk, start: Option<u32>)
        requires divided { IsDivided self.old arena.old.bytes }
        requires live { LiveIn chunk (chunks_of self.old arena.old.bytes) }
        requires start { Starts self.old arena.old.bytes chunk.at start }
        ensures { Changed self.old self.new arena.old arena.new chunk.at (without_place chunk.at (store_of self.old arena.old.bytes)) }
    {
        let beside = self.gaps_from(arena, chunk.at, start);
        let from = self.free_before(arena, chunk, beside.below);
        let gap = self.gap_after(arena, chunk);
        let end = chunk.at + chunk.len + gap;
        let link = self.link_after(arena, chunk, end, beside.next);
        self.merge(arena, chunk, from, end, link, beside.below);
        self.gaps -= gap_count(chunk.at - from) + gap_count(gap);
    }

    /// Joins the chunks that were freed with the gaps beside them, the newest first.
    #[inline(always)]
    pub(crate) fn join(&mut self, arena: &mut Arena, hints: &Hints)
        requires laid_out { IsLaidOut self.old arena.old.bytes }
        ensures joins { Joins self.old self.new arena.old arena.new }
        ensures none { self.new.freed ≡ 0 }
    {
        while let Some(at) = self.newest {
            let chunk = self.freed_chunk(arena, at);
            let start = self.start_below(arena, chunk.at, hints.below(chunk.at));
            self.newest = chunk.link;
            self.freed -= 1;
            self.release(arena, chunk, start);
        }
    }

    /// Sets a live chunk aside as freed: it is linked to the one that was freed before it, and joined later.
    pub(crate) fn set_aside(&mut self, arena: &mut Arena, chunk: Chunk)
        requires divided { IsDivided self.old arena.old.bytes }
        requires stands { Stands chunk (chunks_of self.old arena.old.bytes) }
        requires live { is_a_name chunk.owner ≡ true }
        requires freed { FreedLinked self.old arena.old.bytes }
        ensures aside { Aside self.old self.new arena.old.bytes arena.new.bytes chunk }
        ensures places { self.new.places ≡ self.old.places }
        ensures counts { (self.new.freed ≡ self.old.freed + 1) × (self.new.gaps ≡ self.old.gaps) }
        ensures rest { KeepsToSpan self.old self.new arena.old arena.new }
    {
        self.put_chunk(
            arena,
            Chunk {
                owner: Some(FREED),
                link: self.newest,
                ..chunk
            },
        );
        self.newest = Some(chunk.at);
        self.freed += 1;
    }

    /// Resizes a name's chunk to `n` bytes in the room that it has: the first ones stay, and zeros follow. No gap changes.
    fn refill(&self, arena: &mut Arena, chunk: Chunk, name: u32, n: u32)
        requires divided { IsDivided self.now arena.old.bytes }
        requires owned { Owned name chunk (chunks_of self.now arena.old.bytes) }
        requires name { name < 272 }
        requires fits { self.now.header + n ≤ chunk.len }
        ensures { Changed self.now self.now arena.old arena.new chunk.at
            (with_block (block_at (place_in_chunk self.now.header chunk) name
            (resized n (bytes_in_chunk self.now.header arena.old.bytes self.now.span.at chunk)))
            (without_place chunk.at (store_of self.now arena.old.bytes))) }
    {
        let live = Chunk {
            at: chunk.at,
            len: chunk.len,
            owner: Some(name),
            size: n,
            link: None,
        };
        self.clear(arena, live, chunk.size);
        self.put_chunk(arena, live);
    }

    /// Resizes a name's chunk to another room where it is, and `n` bytes: the first ones stay, and zeros follow. What is left
    /// of its bytes and of the gap after it becomes a gap.
    pub(crate) fn resize(
        &mut self,
        arena: &mut Arena,
        chunk: Chunk,
        name: u32,
        room: u32,
        n: u32,
        start: Option<u32>,
    )
        requires divided { IsDivided self.old arena.old.bytes }
        requires owned { Owned name chunk (chunks_of self.old arena.old.bytes) }
        requires name { name < 272 }
        requires some { 1 ≤ n }
        requires room { room_in_place (place_in_chunk self.old.header chunk) n (store_of self.old arena.old.bytes) ≡ Some room }
        requires start { Starts self.old arena.old.bytes chunk.at start }
        ensures { Changed self.old self.new arena.old arena.new chunk.at
            (with_block (block_at (at_place chunk.at room) name
            (resized n (bytes_in_chunk self.old.header arena.old.bytes self.old.span.at chunk)))
            (without_place chunk.at (store_of self.old arena.old.bytes))) }
    {
        if self.header + room == chunk.len {
            self.refill(arena, chunk, name, n);
            return;
        }
        let beside = self.gaps_from(arena, chunk.at, start);
        let gap = self.gap_after(arena, chunk);
        let end = chunk.at + chunk.len + gap;
        let link = self.link_after(arena, chunk, end, beside.next);
        let live = Chunk {
            at: chunk.at,
            len: self.header + room,
            owner: Some(name),
            size: n,
            link: None,
        };
        self.clear(arena, live, chunk.size);
        let first = self.lay(arena, live, end, link);
        self.link_below(arena, beside.below, first);
        self.gaps -= gap_count(gap);
    }

    /// Moves a live chunk's block to another position, which is returned. It gets `n` bytes there: the first ones stay, and
    /// zeros follow. `None` exactly where it fits nowhere; then nothing changes.
    pub(crate) fn relocate(
        &mut self,
        arena: &mut Arena,
        chunk: Chunk,
        name: u32,
        n: u32,
    ) -> Option<u32>
        requires divided { IsDivided self.old arena.old.bytes }
        requires owned { Owned name chunk (chunks_of self.old arena.old.bytes) }
        requires name { name < 272 }
        requires some { 1 ≤ n }
        requires freed { FreedLinked self.old arena.old.bytes }
        requires joined { self.old.freed ≡ 0 }
        ensures at { result ≡ option_map (λ target. target.at) (place n (store_of self.old arena.old.bytes)) }
        ensures refused { IfNone result (place n (store_of self.old arena.old.bytes) ≡ None) }
        ensures unchanged { IfNone result ((self.new ≡ self.old) × (arena.new ≡ arena.old)) }
        ensures block { OnSome result
            (option_map (λ target. with_block
            (block_at target name (resized n (bytes_in_chunk self.old.header arena.old.bytes self.old.span.at chunk)))
            (without_place chunk.at (store_of self.old arena.old.bytes))) (place n (store_of self.old arena.old.bytes))
            ≡ Some (heap_of self.new arena.new.bytes)) }
        ensures divided { OnSome result (IsDivided self.new arena.new.bytes) }
        ensures freed { OnSome result (FreedLinked self.new arena.new.bytes) }
        ensures places { self.new.places ≡ self.old.places }
        ensures rest { KeepsToSpan self.old self.new arena.old arena.new }
    {
        let target = self.place(arena, n)?;
        self.put_block(arena, target, name, n, Some(chunk));
        self.set_aside(arena, chunk);
        Some(target.place.at)
    }
}
