//! How a call for a block went. `toarmuts/managed.h` has the same numbers.

/// The handle has a block.
pub const ALLOCATED: u8 = 0;
/// The table is none: a block is outside the buffer, or two of them share a byte.
pub const NO_TABLE: u8 = 1;
/// The table has no such handle.
pub const NO_HANDLE: u8 = 2;
/// The handle had a block already.
pub const IN_USE: u8 = 3;
/// No bytes were asked for.
pub const NO_BYTES: u8 = 4;
/// The bytes aren't free.
pub const NO_ROOM: u8 = 5;
