//! Heap memory: blocks of any size over one region, after `heapmem.h` of Contiki-NG.
//!
//! A block stays where it is until it is freed or resized. The region is divided into chunks, each with a header: live blocks,
//! chunks that were freed, and gaps. `free` only links its chunk, before those freed earlier; the next call that searches joins
//! them, the newest first, with the gaps beside them or with the top gap, which is above the last chunk and has no header. The
//! gaps are linked too, from the lowest on, and a search follows these links. A header has 16 bytes, or 8: then a free chunk's
//! link is after it.
#![tactic(auto)]

mod chunk;
mod gap_list;
mod headers;
mod heap;
mod hints;
mod place_table;
mod region;
mod search;
mod split_and_join;

pub use chunk::Place;
pub use heap::Heap;
pub use mote_types::block_name::Key;
