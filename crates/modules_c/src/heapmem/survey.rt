//! What rows leave free: whether they are a table, which gap a block takes, and where the last one ends.

ghost use Rattle.std.specs.Prelude.{◌≡◌, ℕ, List, ◌+◌, ◌≤◌, ◌<◌, ◌↔◌, ◌⊎◌, IsTrue, length, IfSome, IfNone, IfOk, IfErr, Some};
ghost use Rattle.std.specs.Option.{option_map};
ghost use Rattle.heap_core.specs.HeapStore.{best_gap, better, gaps, footprint, place, place_of, room_in_place, stats_of};
ghost use Rattle.modules_c.specs.Heapmem.Heaps.{block_told, heap_of, room_of, IsTable};
ghost use Rattle.modules_c.specs.Code.HeapmemRows.{gap_of, place_told, row_of, next_place, IsFree, HasNoPlace};

use crate::heapmem::outcome::Outcome;
use crate::heapmem::row::{Hole, Row, Spot, Stats, least_room, room_of, room_taken};

/// Where a row's block ends, if it is at a position or after it, and has room.
#[tactic(auto, unfolding(crate::specs::Heapmem::Heaps::size_of, crate::specs::Heapmem::Heaps::rest_of))]
fn end_after(row: Row, from: usize) -> Option<usize>
    ensures some { IfSome result (λ end. (from ≤ row.offset) × (1 ≤ room_of row) × (end ≡ row.offset + room_of row)) }
    ensures none { IfNone result (from ≤ row.offset → ¬ (1 ≤ room_of row)) }
{
    let offset = row.offset as usize;
    let room = room_of(row);
    if from <= offset && room != 0 {
        Some(offset + room)
    } else {
        None
    }
}

/// Whether the rows describe blocks that are in `capacity` bytes, apart from each other and in their order.
pub fn is_table(rows: &[Row], capacity: usize) -> bool
    ensures { IsTrue result ↔ IsTable rows.now capacity }
{
    let mut from = 0;
    for row in rows {
        let Some(end) = end_after(*row, from) else {
            return false;
        };
        from = end;
    }
    from <= capacity
}

/// The better one for `need` bytes of a gap found before, if there is one, and this one.
fn better(need: u128, best: Option<Hole>, hole: Hole) -> Option<Hole>
    ensures better { option_map gap_of result ≡ better need (option_map gap_of best) (gap_of hole) }
    ensures chosen { (result ≡ best) ⊎ ((result ≡ Some hole) × (need ≤ hole.len)) }
{
    if need > hole.len as u128 {
        return best;
    }
    match best {
        Some(other) if other.len <= hole.len => Some(other),
        _ => Some(hole),
    }
}

/// What a walk over the rows finds.
#[derive(Clone, Copy, Drop)]
pub struct Survey {
    /// The shortest gap below the last block that is long enough, the lowest on a tie.
    pub best: Option<Hole>,
    /// Where the last block ends.
    pub end: usize,
}

/// The best gap for `need` bytes, and where the last block ends. `None` where the rows are no table.
fn look_over(rows: &[Row], capacity: usize, need: u128) -> Option<Survey>
    ensures table { IfSome result (λ _. IsTable rows.now capacity) }
    ensures none { IfNone result (¬ IsTable rows.now capacity) }
    ensures best { IfSome result
        (λ survey. (bytes : List ℕ) → option_map gap_of survey.best ≡ best_gap need (gaps (heap_of rows.now bytes))) }
    ensures end { IfSome result (λ survey. (bytes : List ℕ) → survey.end ≡ footprint (heap_of rows.now bytes)) }
    ensures inside { IfSome result (λ survey. survey.end ≤ capacity) }
    ensures free { IfSome result (λ survey. IfSome survey.best (λ hole. (need ≤ hole.len) × IsFree 0 rows.now capacity hole.at hole.len)) }
    ensures top { IfSome result (λ survey. (len : ℕ) → survey.end + len ≤ capacity → IsFree 0 rows.now capacity survey.end len) }
{
    let mut best = None;
    let mut end = 0;
    for row in rows {
        let Some(next) = end_after(*row, end) else {
            return None;
        };
        if end < row.offset as usize {
            best = better(
                need,
                best,
                Hole {
                    at: end,
                    len: row.offset as usize - end,
                },
            );
        }
        end = next;
    }
    if end > capacity {
        return None;
    }
    Some(Survey { best, end })
}

/// Where a block of `n` bytes goes, or why it can't: `NoTable` or `NoRoom`.
pub fn find_place(rows: &[Row], capacity: usize, n: usize) -> Result<Spot, Outcome>
    ensures table { IfOk result (λ _. IsTable rows.now capacity) }
    ensures place { IfOk result (λ spot. (bytes : List ℕ) → length bytes ≡ capacity
        → Some (place_told spot) ≡ place n (heap_of rows.now bytes)) }
    ensures room { IfOk result (λ spot. (1 ≤ spot.room) × (n ≤ spot.room) × (spot.room < n + 32)) }
    ensures free { IfOk result (λ spot. IsFree 0 rows.now capacity spot.at spot.room) }
    ensures refused { IfErr result (λ outcome. HasNoPlace outcome n rows.now capacity) }
{
    let room = least_room(n);
    let Some(survey) = look_over(rows, capacity, room) else {
        return Err(Outcome::NoTable);
    };
    match survey.best {
        Some(hole) => Ok(Spot {
            at: hole.at,
            room: room_taken(room as usize, hole.len),
        }),
        None if room <= (capacity - survey.end) as u128 => Ok(Spot {
            at: survey.end,
            room: room as usize,
        }),
        None => Err(Outcome::NoRoom),
    }
}

/// Where the block after that of this number begins; the end of the region, where it is the last one.
fn next_place(rows: &[Row], number: usize, capacity: usize) -> usize
    requires { number < length rows.now }
    ensures { result ≡ next_place number rows.now capacity }
{
    if number + 1 < rows.len() {
        rows[number + 1].offset as usize
    } else {
        capacity
    }
}

/// The room that the block of this number has once it is resized to `n` bytes where it is. `None` where it can't be.
pub fn room_in_place(rows: &[Row], capacity: usize, number: usize, n: usize) -> Option<usize>
    requires table { IsTable rows.now capacity }
    requires there { number < length rows.now }
    ensures room { (bytes : List ℕ) → length bytes ≡ capacity →
        result ≡ room_in_place (place_of (block_told bytes (row_of rows.now number))) n (heap_of rows.now bytes) }
    ensures fits { IfSome result (λ room. (1 ≤ room) × (n ≤ room) × (room < n + 32)
        × ((row_of rows.now number).offset + room ≤ next_place number rows.now capacity)) }
{
    let row = rows[number];
    let room = room_of(row);
    let least = least_room(n);
    let most = next_place(rows, number, capacity) - row.offset as usize;
    if least <= room as u128 {
        return Some(room_taken(least as usize, room));
    }
    if least > most as u128 {
        return None;
    }
    if number + 1 == rows.len() {
        Some(least as usize)
    } else {
        Some(room_taken(least as usize, most))
    }
}

/// The number of bytes between the blocks, and after the last one.
fn left_over(rows: &[Row], capacity: usize) -> usize
    requires { IsTable rows.now capacity }
    ensures gaps { (bytes : List ℕ) → length bytes ≡ capacity → result ≡ (stats_of (heap_of rows.now bytes)).available }
    ensures inside { result ≤ capacity }
{
    let mut free = 0;
    let mut end = 0;
    for row in rows {
        free += row.offset as usize - end;
        end = row.offset as usize + room_of(*row);
    }
    free + (capacity - end)
}

/// The figures of a heap. `None` where the rows are no table.
pub fn figures(rows: &[Row], capacity: usize) -> Option<Stats>
    ensures table { IfSome result (λ _. IsTable rows.now capacity) }
    ensures none { IfNone result (¬ IsTable rows.now capacity) }
    ensures allocated { IfSome result (λ stats. (bytes : List ℕ) → length bytes ≡ capacity
        → stats.allocated ≡ (stats_of (heap_of rows.now bytes)).allocated) }
    ensures available { IfSome result (λ stats. (bytes : List ℕ) → length bytes ≡ capacity
        → stats.available ≡ (stats_of (heap_of rows.now bytes)).available) }
    ensures footprint { IfSome result (λ stats. (bytes : List ℕ) → stats.footprint ≡ (stats_of (heap_of rows.now bytes)).footprint) }
    ensures chunks { IfSome result (λ stats. (bytes : List ℕ) → stats.chunks ≡ (stats_of (heap_of rows.now bytes)).chunks) }
{
    let Some(survey) = look_over(rows, capacity, 0) else {
        return None;
    };
    let available = left_over(rows, capacity);
    Some(Stats {
        allocated: capacity - available,
        available,
        footprint: survey.end,
        chunks: rows.len(),
    })
}
