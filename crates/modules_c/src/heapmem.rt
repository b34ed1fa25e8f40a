//! Heap memory for C (`heapmem.h` of Contiki-NG), over rows and bytes that their owner stores: `toarmuts/calls.h` in
//! `c/modules/include` declares these calls, and `lib/heapmem.h` there has them under Contiki-NG's names.
//!
//! A row says where a block is; the rows are in the order of their positions, and no header is among the bytes. Each contract is
//! about the heap that rows and bytes stand for, by heap_core's definitions: which gap a block takes, and how much of it. No
//! call requires anything of rows, numbers or lengths: for rows that are no table it returns that, and nothing changes. A row has
//! 27 bits for a size, so in a heap of 2^27 bytes or more no block is allocated or resized: this is returned as no table, too.

mod block;
mod outcome;
mod row;
mod survey;
mod table;

ghost use Rattle.std.specs.Prelude.{◌≡◌, ◌≢◌, length, IsSomeAnd, Some};
ghost use Rattle.heap_core.specs.HeapStore.{place, place_of, new_place, find_block, without_block, stats_of};
ghost use Rattle.modules_c.specs.declared.heapmem.outcome.Outcome.{Outcome};
ghost use Rattle.modules_c.specs.Heapmem.Heaps.{heap_of, IsTable, front, with_new, with_resized};
ghost use Rattle.modules_c.specs.Heapmem.Answers.{outcome_numbered, AllocTold, FreeTold, ReallocTold, StatsTold};

use crate::heapmem::outcome::{Outcome, number_of};
use crate::heapmem::survey::figures;
pub use row::{Row, Stats};

/// Allocates a block of `size` bytes, all 0, and reports its position (`heapmem_alloc`). The last row is a spare one, and of
/// no block. Where it returns anything but `Done`, nothing changes.
#[unsafe(no_mangle)]
pub extern "C" fn toarmuts_heapmem_alloc(
    rows: &mut [Row],
    bytes: &mut [u8],
    size: usize,
    at: &mut usize,
) -> u8
    ensures answer { IsSomeAnd (outcome_numbered result) (λ outcome. AllocTold outcome size rows.old bytes.old) }
    ensures block { outcome_numbered result ≡ Some Outcome.Done → IsSomeAnd (place size (heap_of (front rows.old) bytes.old)) (λ there.
        (at.new ≡ there.at) × (heap_of rows.new bytes.new ≡ with_new there size (heap_of (front rows.old) bytes.old))) }
    ensures sound { outcome_numbered result ≡ Some Outcome.Done → IsTable rows.new (length bytes.new) }
    ensures unchanged { outcome_numbered result ≢ Some Outcome.Done → (rows.new ≡ rows.old) × (bytes.new ≡ bytes.old) × (at.new ≡ at.old) }
{
    number_of(block::alloc(rows, bytes, size, at))
}

/// Frees the block that begins at a position (`heapmem_free`); the last row is a spare one then. Where it returns anything but
/// `Done`, nothing changes.
#[unsafe(no_mangle)]
pub extern "C" fn toarmuts_heapmem_free(rows: &mut [Row], bytes: &[u8], at: usize) -> u8
    ensures answer { IsSomeAnd (outcome_numbered result) (λ outcome. FreeTold outcome at rows.old bytes.now) }
    ensures block { outcome_numbered result ≡ Some Outcome.Done
        → heap_of (front rows.new) bytes.now ≡ without_block at (heap_of rows.old bytes.now) }
    ensures sound { outcome_numbered result ≡ Some Outcome.Done → IsTable (front rows.new) (length bytes.now) }
    ensures unchanged { outcome_numbered result ≢ Some Outcome.Done → rows.new ≡ rows.old }
{
    number_of(block::free(rows, bytes, at))
}

/// Resizes the block that begins at a position to `size` bytes, and reports where it is then (`heapmem_realloc`): the first
/// bytes stay, as many as both sizes have, and further ones are 0. Where it returns anything but `Done`, nothing changes.
#[unsafe(no_mangle)]
pub extern "C" fn toarmuts_heapmem_realloc(
    rows: &mut [Row],
    bytes: &mut [u8],
    at: &mut usize,
    size: usize,
) -> u8
    ensures answer { IsSomeAnd (outcome_numbered result) (λ outcome. ReallocTold outcome at.old size rows.old bytes.old) }
    ensures block { outcome_numbered result ≡ Some Outcome.Done → IsSomeAnd (find_block at.old (heap_of rows.old bytes.old)) (λ block.
        IsSomeAnd (new_place (place_of block) size (heap_of rows.old bytes.old)) (λ there.
        (at.new ≡ there.at) × (heap_of rows.new bytes.new ≡ with_resized there size block (heap_of rows.old bytes.old)))) }
    ensures sound { outcome_numbered result ≡ Some Outcome.Done → IsTable rows.new (length bytes.new) }
    ensures unchanged { outcome_numbered result ≢ Some Outcome.Done → (rows.new ≡ rows.old) × (bytes.new ≡ bytes.old) × (at.new ≡ at.old) }
{
    number_of(block::realloc(rows, bytes, at, size))
}

/// Reports the figures of a heap (`heapmem_stats`). Where it returns anything but `Done`, nothing changes.
#[unsafe(no_mangle)]
pub extern "C" fn toarmuts_heapmem_stats(rows: &[Row], bytes: &[u8], stats: &mut Stats) -> u8
    ensures answer { IsSomeAnd (outcome_numbered result) (λ outcome. StatsTold outcome rows.now bytes.now) }
    ensures allocated { outcome_numbered result ≡ Some Outcome.Done
        → stats.new.allocated ≡ (stats_of (heap_of rows.now bytes.now)).allocated }
    ensures available { outcome_numbered result ≡ Some Outcome.Done
        → stats.new.available ≡ (stats_of (heap_of rows.now bytes.now)).available }
    ensures footprint { outcome_numbered result ≡ Some Outcome.Done
        → stats.new.footprint ≡ (stats_of (heap_of rows.now bytes.now)).footprint }
    ensures chunks { outcome_numbered result ≡ Some Outcome.Done → stats.new.chunks ≡ (stats_of (heap_of rows.now bytes.now)).chunks }
    ensures unchanged { outcome_numbered result ≢ Some Outcome.Done → stats.new ≡ stats.old }
{
    let Some(found) = figures(rows, bytes.len()) else {
        return number_of(Outcome::NoTable);
    };
    *stats = found;
    number_of(Outcome::Done)
}
