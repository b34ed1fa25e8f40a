//! How rows are put into a table and removed.

ghost use Rattle.std.specs.Prelude.{◌≡◌, ◌+◌, ◌≤◌, ◌<◌, length};
ghost use Rattle.std.specs.List.Sorted.{IsNonDecreasingBy};
ghost use Rattle.modules_c.specs.Heapmem.Heaps.{front};
ghost use Rattle.modules_c.specs.Code.HeapmemRows.{row_of, with_row, without_row, BeginsAt, BeginBelow};

use crate::heapmem::row::Row;

/// The number of the first row that begins after a position; the number of rows, where none does.
fn first_after(rows: &[Row], offset: usize) -> usize
    requires { IsNonDecreasingBy (λ row. row.offset) rows.now }
    ensures inside { result ≤ length rows.now }
    ensures below { BeginBelow rows.now offset result }
    ensures above { result < length rows.now → offset < (row_of rows.now result).offset }
{
    rows.partition_point(|row| row.offset as usize <= offset)
}

/// The number of the row that begins at a position.
pub fn row_at(rows: &[Row], offset: usize) -> Option<usize>
    requires { IsNonDecreasingBy (λ row. row.offset) rows.now }
    ensures { BeginsAt rows.now offset (length rows.now) result }
{
    let after = first_after(rows, offset);
    if after != 0 && rows[after - 1].offset as usize == offset {
        Some(after - 1)
    } else {
        None
    }
}

/// Puts a row among those before the last one, in the order of their positions. The last one goes.
pub fn insert(rows: &mut [Row], row: Row)
    requires last { 1 ≤ length rows.old }
    requires order { IsNonDecreasingBy (λ row. row.offset) (front rows.old) }
    ensures { rows.new ≡ with_row row (front rows.old) }
{
    let last = rows.len() - 1;
    let number = first_after(&rows[..last], row.offset as usize);
    rows.copy_within(number..last, number + 1);
    rows[number] = row;
}

/// Removes a row. The last one is spare then.
pub fn remove(rows: &mut [Row], number: usize)
    requires { number < length rows.old }
    ensures rows { front rows.new ≡ without_row number rows.old }
    ensures length { length rows.new ≡ length rows.old }
{
    rows.copy_within(number + 1.., number);
}
