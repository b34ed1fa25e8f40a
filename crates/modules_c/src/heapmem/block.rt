//! How blocks are allocated, freed and resized.

ghost use Rattle.std.specs.Prelude.{◌≡◌, ◌≢◌, ◌+◌, ◌≤◌, ◌<◌, length, IsSomeAnd, Some};
ghost use Rattle.mote_types.specs.Bytes.{range_of, resized};
ghost use Rattle.arena_core.specs.Code.Written.{written};
ghost use Rattle.heap_core.specs.HeapStore.{place, place_of, new_place, room_in_place, find_block, without_block};
ghost use Rattle.modules_c.specs.Heapmem.Heaps.{block_told, heap_of, row_limit, size_of, IsTable, front, with_new, with_resized};
ghost use Rattle.modules_c.specs.Heapmem.Answers.{AllocTold, FreeTold, ReallocTold};
ghost use Rattle.modules_c.specs.Code.HeapmemRows.{place_told, row_of, next_place, IsFree};

use crate::bytes::{clear, copy};
use crate::heapmem::outcome::Outcome;
use crate::heapmem::row::{Row, Spot, row_for, size_of};
use crate::heapmem::survey::{find_place, is_table, room_in_place};
use crate::heapmem::table::{insert, remove, row_at};

/// A row has 27 bits for a block's size, so it can't describe all blocks of a larger heap.
const MOST_BYTES: usize = 0x7ff_ffff;

/// Puts a block of zeros where nothing is.
fn put(rows: &mut [Row], bytes: &mut [u8], spot: Spot, size: usize)
    requires spare { 1 ≤ length rows.old }
    requires table { IsTable (front rows.old) (length bytes.old) }
    requires some { 1 ≤ spot.room }
    requires room { size ≤ spot.room }
    requires rest { spot.room < size + 32 }
    requires free { IsFree 0 (front rows.old) (length bytes.old) spot.at spot.room }
    requires small { spot.at + spot.room < row_limit }
    ensures heap { heap_of rows.new bytes.new ≡ with_new (place_told spot) size (heap_of (front rows.old) bytes.old) }
    ensures table { IsTable rows.new (length bytes.new) }
{
    clear(bytes, spot.at, size);
    insert(rows, row_for(spot.at, spot.room, size));
}

/// Allocates a block of zeros, and reports its position.
pub fn alloc(rows: &mut [Row], bytes: &mut [u8], size: usize, at: &mut usize) -> Outcome
    ensures answer { AllocTold result size rows.old bytes.old }
    ensures block { result ≡ Outcome.Done → IsSomeAnd (place size (heap_of (front rows.old) bytes.old)) (λ there.
        (at.new ≡ there.at) × (heap_of rows.new bytes.new ≡ with_new there size (heap_of (front rows.old) bytes.old))) }
    ensures sound { result ≡ Outcome.Done → IsTable rows.new (length bytes.new) }
    ensures unchanged { result ≢ Outcome.Done → (rows.new ≡ rows.old) × (bytes.new ≡ bytes.old) × (at.new ≡ at.old) }
{
    if rows.is_empty() {
        return Outcome::NoRow;
    }
    if bytes.len() > MOST_BYTES {
        return Outcome::NoTable;
    }
    let taken = &rows[..rows.len() - 1];
    let spot = match find_place(taken, bytes.len(), size) {
        Ok(spot) => spot,
        Err(outcome) => return outcome,
    };
    put(rows, bytes, spot, size);
    *at = spot.at;
    Outcome::Done
}

/// Frees the block that begins at a position.
pub fn free(rows: &mut [Row], bytes: &[u8], at: usize) -> Outcome
    ensures answer { FreeTold result at rows.old bytes.now }
    ensures block { result ≡ Outcome.Done → heap_of (front rows.new) bytes.now ≡ without_block at (heap_of rows.old bytes.now) }
    ensures sound { result ≡ Outcome.Done → IsTable (front rows.new) (length bytes.now) }
    ensures unchanged { result ≢ Outcome.Done → rows.new ≡ rows.old }
{
    if !is_table(rows, bytes.len()) {
        return Outcome::NoTable;
    }
    let Some(number) = row_at(rows, at) else {
        return Outcome::NoBlock;
    };
    remove(rows, number);
    Outcome::Done
}

/// Writes a row's bytes to an offset, resized to `n` bytes.
fn carry(bytes: &mut [u8], row: Row, to: usize, n: usize)
    requires source { row.offset + size_of row ≤ length bytes.old }
    requires target { to + n ≤ length bytes.old }
    ensures { bytes.new ≡ written bytes.old to (resized n (range_of row.offset (size_of row) bytes.old)) }
{
    let kept = size_of(row).min(n);
    copy(bytes, row.offset as usize, kept, to);
    clear(bytes, to + kept, n - kept);
}

/// Resizes the block of this number where it is.
fn resize(rows: &mut [Row], bytes: &mut [u8], number: usize, room: usize, n: usize)
    requires table { IsTable rows.old (length bytes.old) }
    requires there { number < length rows.old }
    requires some { 1 ≤ room }
    requires fits { n ≤ room }
    requires rest { room < n + 32 }
    requires room { (row_of rows.old number).offset + room ≤ next_place number rows.old (length bytes.old) }
    requires small { (row_of rows.old number).offset + room < row_limit }
    ensures heap { heap_of rows.new bytes.new ≡ with_resized (record { at = (row_of rows.old number).offset; room = room }) n
        (block_told bytes.old (row_of rows.old number)) (heap_of rows.old bytes.old) }
    ensures table { IsTable rows.new (length bytes.new) }
{
    let row = rows[number];
    carry(bytes, row, row.offset as usize, n);
    rows[number] = row_for(row.offset as usize, room, n);
}

/// Moves the block of this number to where nothing is, and resizes it.
fn relocate(rows: &mut [Row], bytes: &mut [u8], number: usize, spot: Spot, n: usize)
    requires table { IsTable rows.old (length bytes.old) }
    requires there { number < length rows.old }
    requires some { 1 ≤ spot.room }
    requires fits { n ≤ spot.room }
    requires rest { spot.room < n + 32 }
    requires free { IsFree 0 rows.old (length bytes.old) spot.at spot.room }
    requires small { spot.at + spot.room < row_limit }
    ensures heap { heap_of rows.new bytes.new ≡ with_resized (place_told spot) n (block_told bytes.old (row_of rows.old number))
        (heap_of rows.old bytes.old) }
    ensures table { IsTable rows.new (length bytes.new) }
{
    carry(bytes, rows[number], spot.at, n);
    remove(rows, number);
    insert(rows, row_for(spot.at, spot.room, n));
}

/// Resizes the block that begins at a position, and reports where it is then.
pub fn realloc(rows: &mut [Row], bytes: &mut [u8], at: &mut usize, n: usize) -> Outcome
    ensures answer { ReallocTold result at.old n rows.old bytes.old }
    ensures block { result ≡ Outcome.Done → IsSomeAnd (find_block at.old (heap_of rows.old bytes.old)) (λ block.
        IsSomeAnd (new_place (place_of block) n (heap_of rows.old bytes.old)) (λ there.
        (at.new ≡ there.at) × (heap_of rows.new bytes.new ≡ with_resized there n block (heap_of rows.old bytes.old)))) }
    ensures sound { result ≡ Outcome.Done → IsTable rows.new (length bytes.new) }
    ensures unchanged { result ≢ Outcome.Done → (rows.new ≡ rows.old) × (bytes.new ≡ bytes.old) × (at.new ≡ at.old) }
{
    if bytes.len() > MOST_BYTES {
        return Outcome::NoTable;
    }
    if !is_table(rows, bytes.len()) {
        return Outcome::NoTable;
    }
    let Some(number) = row_at(rows, *at) else {
        return Outcome::NoBlock;
    };
    if let Some(room) = room_in_place(rows, bytes.len(), number, n) {
        resize(rows, bytes, number, room, n);
        return Outcome::Done;
    }
    let spot = match find_place(rows, bytes.len(), n) {
        Ok(spot) => spot,
        Err(outcome) => return outcome,
    };
    relocate(rows, bytes, number, spot, n);
    *at = spot.at;
    Outcome::Done
}
