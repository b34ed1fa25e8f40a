//! How a call went.

ghost use Rattle.std.specs.Prelude.{◌≡◌, Some};
ghost use Rattle.modules_c.specs.Heapmem.Answers.{outcome_numbered};

/// How a call on a heap went. `toarmuts/calls.h` has the numbers.
#[derive(Clone, Copy, Drop)]
pub enum Outcome {
    /// As it was asked for.
    Done,
    /// The rows don't describe disjoint blocks in the heap: other code wrote to them. Or the heap is too large for rows.
    NoTable,
    /// No block begins there.
    NoBlock,
    /// There is no room for the bytes.
    NoRoom,
    /// There is no row for another block.
    NoRow,
}

/// The number of an outcome.
pub fn number_of(outcome: Outcome) -> u8
    ensures { outcome_numbered result ≡ Some outcome }
{
    match outcome {
        Outcome::Done => 0,
        Outcome::NoTable => 1,
        Outcome::NoBlock => 2,
        Outcome::NoRoom => 3,
        Outcome::NoRow => 4,
    }
}
