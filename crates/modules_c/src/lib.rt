//! The memory modules for C: pools of blocks, managed memory, heap memory and rings of bytes. Each works on memory that its owner
//! keeps, and none knows of another.
#![tactic(auto)]

mod bytes;
pub mod heapmem;
pub mod memb;
pub mod mmem;
pub mod ringbuf;
