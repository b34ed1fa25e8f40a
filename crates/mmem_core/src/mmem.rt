//! The handle table, and the calls on blocks.

ghost use Rattle.std.specs.Prelude.{◌≡◌, ℕ, List, ◌+◌, ◌-◌, ◌*◌, ◌≤◌, ◌<◌, ◌↔◌, length, slice_set, IsNone, IfNone, IfSome, OnSome, IsSome, IsSomeAnd, Some, None};
ghost use Rattle.std.specs.Option.{option_map_or};
ghost use Rattle.mote_types.specs.Rounding.{up4};
ghost use Rattle.mote_types.specs.BlockNames as names;
ghost use Rattle.mote_types.specs.Code.Conditions.{IsName};
ghost use Rattle.mmem_core.specs.ManagedStore.{empty_store, block_of, unused, free, shortage, allocated, freed, with_bytes, copied};
ghost use Rattle.mmem_core.specs.Code.Conditions.{IsManagedSize, length_of};

use crate::order::Order;
use crate::place::Place;
use crate::place_table::PlaceTable;
use crate::quotas::Quotas;
use arena_core::{Arena, Span};
use mote_types::block_name::{Key, number_of};
use mote_types::event::Pid;
use mote_types::refusal::Refusal;
use mote_types::rounding::rounded;
use std::marker::Model;

/// The number of processes that have names: process 3 and the applications.
const PROCESSES: usize = 17;

/// The position of a process in a table of those that have names.
fn process_index(pid: Pid) -> usize
    requires least { 3 ≤ pid.0 }
    requires most { pid.0 ≤ 19 }
    ensures value { result ≡ pid.0 - 3 }
    ensures within { result < PROCESSES }
{
    (pid.0 - 3) as usize
}

/// Managed memory over a span of an arena.
///
/// Each call that accesses bytes is passed that arena, with the span's bytes as the calls before left them.
#[derive(Drop)]
pub struct Mmem {
    span: Span,
    places: PlaceTable,
    order: Order,
    quotas: Quotas,
    used: u32,
    /// What each process's blocks take of that, from process 3 on.
    taken: [u32; PROCESSES],
    slid: u64,
}

impl Model for Mmem {
    ghost use Rattle.std.specs.Prelude.{◌≡◌, ◌≤◌, length};
    ghost use Rattle.mmem_core.specs.Code.Laid.{LieApart};
    ghost use Rattle.mmem_core.specs.Code.Ring.{IsLaidOut};
    ghost use Rattle.mmem_core.specs.Code.Shares.{AreShared};
    ghost use Rattle.mmem_core.specs.Code.HandleTable.{HandleTable};

    ghost Value = { HandleTable };

    ghost view = { λ m. record { span = m.span; quotas = m.quotas; places = m.places; slid = m.slid } };

    ghost invariant = { λ m. IsLaidOut m.places m.order m.used m.span.len × LieApart m.places m.span.len × (m.span.len ≤ 65536)
        × AreShared m.quotas m.places m.taken m.used m.span.len };
}

impl Mmem {
    ghost use Rattle.mmem_core.specs.Code.Places.{bytes_moved, last_end};
    ghost use Rattle.mmem_core.specs.Code.HandleTable.{store_of, IsWithin, KeepsToSpan, CountsMoved};
    ghost use Rattle.mmem_core.specs.Code.Room.{MayFollow};
    ghost use Rattle.mmem_core.specs.Code.Separation.{BlocksLieApart, place_of, end_of_others};

    /// Managed memory without a block, over a span of 4 to 65,536 bytes, a multiple of 4.
    ///
    /// With a quota each of `owners` processes, from 3 on, may hold that many bytes, and the span has room for all of them;
    /// other processes may hold none. With no quota each of the processes 3 to 19 may take all that is free.
    pub fn new(span: Span, quota: Option<u32>, owners: u8) -> Mmem
        requires size { IsManagedSize span.len }
        requires owners { owners ≤ 17 }
        requires quotas { IfSome quota (λ bytes. bytes * owners ≤ span.len) }
        ensures span { result.span ≡ span }
        ensures quota { result.quotas.each ≡ quota }
        ensures owners { result.quotas.owners ≡ option_map_or (λ _. owners) quota 17 }
        ensures empty { (bytes : List ℕ) → store_of result bytes ≡ empty_store span.len quota }
        ensures nothing_slid { result.slid ≡ 0 }
    {
        let owners = match quota {
            Some(_) => owners,
            None => PROCESSES as u8,
        };
        Mmem {
            span,
            quotas: Quotas {
                each: quota,
                owners,
            },
            places: PlaceTable::new(),
            order: Order::new(),
            used: 0,
            taken: [0; PROCESSES],
            slid: 0,
        }
    }

    /// Allocates a block of `n` bytes, all 0, for a name that is not live. `None` exactly where `n`, rounded up to a
    /// multiple of 4, is more than what is free for its process; then nothing changes.
    ///
    /// The block is put after the last one. Where the space there is too short, all blocks slide together first.
    pub fn alloc(&mut self, arena: &mut Arena, key: Key, n: u32) -> Option<()>
        requires named { IsName key.0.0 key.1 }
        requires owner { key.0.0 ≤ 2 + self.old.quotas.owners }
        requires within { IsWithin self.old arena.old.bytes }
        requires unused { block_of key.0.0 key.1 (store_of self.old arena.old.bytes) ≡ None }
        requires some_bytes { 1 ≤ n }
        ensures refused { IsNone result ↔ (free key.0.0 (store_of self.old arena.old.bytes) < up4 n) }
        ensures unchanged { IfNone result ((self.new ≡ self.old) × (arena.new ≡ arena.old)) }
        ensures block { OnSome result (store_of self.new arena.new.bytes ≡ allocated key.0.0 key.1 n (store_of self.old arena.old.bytes)) }
        ensures rest { KeepsToSpan self.old self.new arena.old arena.new }
        ensures slid { CountsMoved self.old self.new }
        ensures still { last_end self.old.places + up4 n ≤ self.old.span.len → bytes_moved self.old.places self.new.places ≡ 0 }
        ensures together { 0 < bytes_moved self.old.places self.new.places
            → last_end self.new.places + unused (store_of self.new arena.new.bytes) ≤ self.new.span.len }
        ensures behind { IfSome result
            (λ _. IsSomeAnd (place_of key.0.0 key.1 self.new) (λ place. place.at ≡ end_of_others key.0.0 key.1 self.new)) }
        ensures last { IfSome result
            (λ _. IsSomeAnd (place_of key.0.0 key.1 self.new) (λ place. last_end self.new.places ≡ place.at + up4 n)) }
    {
        // Only read for the check: a refused call leaves the count in its range.
        let _slid = &self.slid;
        let size = rounded(n);
        if (self.avail(key.0) as u64) < size {
            return None;
        }
        self.make_room(arena, size as u32);
        self.put_last(arena, key, n);
        Some(())
    }

    /// Where the last block ends.
    fn end(&self) -> u32
        ensures end { result ≡ last_end self.now.places }
        ensures inside { result ≤ self.now.span.len }
    {
        match self.order.last() {
            Some(number) => {
                let place = self.places.block(number);
                place.at + rounded(place.len) as u32
            }
            None => 0,
        }
    }

    /// Ensures that `size` bytes after the last block are free: where they aren't, all blocks slide together.
    fn make_room(&mut self, arena: &mut Arena, size: u32)
        requires within { IsWithin self.old arena.old.bytes }
        requires room { size ≤ unused (store_of self.old arena.old.bytes) }
        ensures room { last_end self.new.places + size ≤ self.new.span.len }
        ensures blocks { store_of self.new arena.new.bytes ≡ store_of self.old arena.old.bytes }
        ensures rest { KeepsToSpan self.old self.new arena.old arena.new }
        ensures slid { CountsMoved self.old self.new }
        ensures still { last_end self.old.places + size ≤ self.old.span.len → bytes_moved self.old.places self.new.places ≡ 0 }
        ensures together { 0 < bytes_moved self.old.places self.new.places
            → last_end self.new.places + unused (store_of self.new arena.new.bytes) ≤ self.new.span.len }
    {
        if self.span.len - self.end() < size {
            self.slide_together(arena);
        }
    }

    /// Slides all blocks together, from the span's start on and in the order of their positions.
    fn slide_together(&mut self, arena: &mut Arena)
        requires { IsWithin self.old arena.old.bytes }
        ensures room { last_end self.new.places + unused (store_of self.new arena.new.bytes) ≤ self.new.span.len }
        ensures blocks { store_of self.new arena.new.bytes ≡ store_of self.old arena.old.bytes }
        ensures rest { KeepsToSpan self.old self.new arena.old arena.new }
        ensures slid { CountsMoved self.old self.new }
    {
        let mut end = 0;
        let mut next = self.order.first();
        while let Some(number) = next {
            let place = self.places.block(number);
            let moved = place.slide_down(arena, self.span, end);
            self.places.put(number, place.moved_to(end));
            self.slid = self.slid.saturating_add(moved);
            end += rounded(place.len) as u32;
            next = self.order.next(number);
        }
    }

    /// Puts a new block of zeros after the last one.
    fn put_last(&mut self, arena: &mut Arena, key: Key, n: u32)
        requires { MayFollow self.old arena.old.bytes key.0.0 key.1 n }
        ensures block { store_of self.new arena.new.bytes ≡ allocated key.0.0 key.1 n (store_of self.old arena.old.bytes) }
        ensures place { self.new.places ≡ slice_set self.old.places (names.number_of key.0.0 key.1)
            (Some (record { at = last_end self.old.places; len = n })) }
        ensures last { IsSomeAnd (place_of key.0.0 key.1 self.new) (λ place. last_end self.new.places ≡ place.at + up4 n) }
        ensures end { last_end self.new.places ≡ last_end self.old.places + up4 n }
        ensures rest { KeepsToSpan self.old self.new arena.old arena.new }
        ensures slid { self.new.slid ≡ self.old.slid }
    {
        let at = self.end();
        let number = number_of(key);
        arena.fill(
            Span {
                at: self.span.at + at,
                len: n,
            },
            0,
        );
        self.places.put(number, Place { at, len: n });
        self.order.append(number);
        self.used += rounded(n) as u32;
        self.taken[process_index(key.0)] += rounded(n) as u32;
    }

    /// Frees a name's block, which leaves a hole. No block moves.
    pub fn free(&mut self, arena: &mut Arena, key: Key)
        requires named { IsName key.0.0 key.1 }
        requires within { IsWithin self.old arena.old.bytes }
        requires live { IsSome (block_of key.0.0 key.1 (store_of self.old arena.old.bytes)) }
        ensures block { store_of self.new arena.new.bytes ≡ freed key.0.0 key.1 (store_of self.old arena.old.bytes) }
        ensures rest { KeepsToSpan self.old self.new arena.old arena.new }
        ensures slid { CountsMoved self.old self.new }
        ensures still { (bytes_moved self.old.places self.new.places ≡ 0) × (arena.new ≡ arena.old) }
    {
        let _ = arena;
        let number = number_of(key);
        let place = self.places.block(number);
        self.order.remove(number);
        self.places.clear(number);
        self.used -= rounded(place.len) as u32;
        self.taken[process_index(key.0)] -= rounded(place.len) as u32;
    }

    /// The bytes of a name's block.
    pub fn bytes<'a>(&self, arena: &'a Arena, key: Key) -> &'a [u8]
        requires named { IsName key.0.0 key.1 }
        requires within { IsWithin self.now arena.now.bytes }
        requires live { IsSome (block_of key.0.0 key.1 (store_of self.now arena.now.bytes)) }
        ensures { block_of key.0.0 key.1 (store_of self.now arena.now.bytes) ≡ Some result.now }
    {
        let place = self.places.block(number_of(key));
        arena.bytes(Span {
            at: self.span.at + place.at,
            len: place.len,
        })
    }

    /// Writes bytes into a name's block, from offset `at` on.
    pub fn write(&self, arena: &mut Arena, key: Key, at: u32, bytes: &[u8])
        requires named { IsName key.0.0 key.1 }
        requires within { IsWithin self.now arena.old.bytes }
        requires range { IsSomeAnd (block_of key.0.0 key.1 (store_of self.now arena.old.bytes))
            (λ block. at + length bytes.now ≤ length block) }
        ensures block { store_of self.now arena.new.bytes ≡ with_bytes key.0.0 key.1 at bytes.now (store_of self.now arena.old.bytes) }
        ensures rest { KeepsToSpan self.now self.now arena.old arena.new }
    {
        let place = self.places.block(number_of(key));
        let target = arena.bytes_mut(Span {
            at: self.span.at + place.at + at,
            len: bytes.len() as u32,
        });
        target.copy_from_slice(bytes);
    }

    /// Copies all bytes of one block to the front of another one, which is no shorter.
    pub fn copy(&self, arena: &mut Arena, source: Key, target: Key)
        requires source_named { IsName source.0.0 source.1 }
        requires target_named { IsName target.0.0 target.1 }
        requires within { IsWithin self.now arena.old.bytes }
        requires live { IsSomeAnd (block_of source.0.0 source.1 (store_of self.now arena.old.bytes))
            (λ from. IsSomeAnd (block_of target.0.0 target.1 (store_of self.now arena.old.bytes)) (λ to. length from ≤ length to)) }
        ensures block { store_of self.now arena.new.bytes ≡ copied source.0.0 source.1 target.0.0 target.1
            (store_of self.now arena.old.bytes) }
        ensures rest { KeepsToSpan self.now self.now arena.old arena.new }
    {
        let source = number_of(source);
        let target = number_of(target);
        if source != target {
            let from = self.places.block(source);
            let to = self.places.block(target);
            arena.copy(self.span.at + from.at, self.span.at + to.at, from.len);
        }
    }

    /// The number of bytes that are free for a process: what the rounded lengths of its own live blocks leave of its quota;
    /// where there is none, what those of all live blocks leave of the span. For an owner these bytes are available, whatever
    /// the others hold.
    pub fn avail(&self, pid: Pid) -> u32
        requires least { 3 ≤ pid.0 }
        requires most { pid.0 ≤ 19 }
        ensures free { (bytes : List ℕ) → IsWithin self.now bytes → result ≡ free pid.0 (store_of self.now bytes) }
        ensures there { (bytes : List ℕ) → IsWithin self.now bytes → pid.0 ≤ 2 + self.now.quotas.owners
            → result ≤ unused (store_of self.now bytes) }
    {
        match self.quotas.each {
            Some(quota) => quota - self.taken[process_index(pid)],
            None => self.span.len - self.used,
        }
    }

    /// Why a block that doesn't fit is refused: `OverQuota` where there are quotas, otherwise `NoRoom`.
    pub fn shortage(&self) -> Refusal
        ensures { (bytes : List ℕ) → result ≡ shortage (store_of self.now bytes) }
    {
        match self.quotas.each {
            Some(_) => Refusal::OverQuota,
            None => Refusal::NoRoom,
        }
    }

    /// The length of a name's block, if it is live.
    pub fn len_of(&self, key: Key) -> Option<u32>
        requires { IsName key.0.0 key.1 }
        ensures { (bytes : List ℕ) → IsWithin self.now bytes → result ≡ length_of key.0.0 key.1 (store_of self.now bytes) }
    {
        self.places.get(number_of(key)).map(|place| place.len)
    }

    /// No two live blocks share a byte of the arena, and each one's bytes are read from the part that it takes.
    pub fn blocks_lie_apart(&self)
        ensures { (bytes : List ℕ) → IsWithin self.now bytes → BlocksLieApart self.now bytes }
    {
        // Does nothing: the clause states what holds of the table after any calls.
        let _span = &self.span;
    }

    /// The number of bytes moved so far, the moved blocks' lengths rounded up. It saturates at the highest `u64`.
    pub fn slid(&self) -> u64
        ensures { result ≡ self.now.slid }
    {
        self.slid
    }
}
