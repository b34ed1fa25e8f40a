//! How much of managed memory each process may hold.

/// How much each process may hold, and which processes may hold blocks.
#[derive(Clone, Copy, Drop)]
pub struct Quotas {
    /// Bytes, the blocks' lengths rounded up; none where a process may take all that is free.
    pub each: Option<u32>,
    /// The number of processes that may hold blocks, from process 3 on.
    pub owners: u8,
}
