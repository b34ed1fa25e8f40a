//! The arena: one raw block of bytes, read and written by ranges.
//!
//! Everything above sees a list of bytes. Raw pointers are in `block.rt` and `Arena::pair_mut`.
#![tactic(auto)]

mod arena;
mod block;
mod bytes;
mod span;

pub use arena::Arena;
pub use span::Span;
