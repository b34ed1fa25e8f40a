//! The memory of a node: one arena, and what it is divided into: managed memory, heap memory, and four
//! pools of blocks with their lists.
//!
//! All of it is allocated when the node boots; no call allocates memory.
#![tactic(auto)]

mod block_calls;
mod frames;
mod heap_calls;
mod list_calls;
mod listed_pool;
mod managed;
mod memory;
mod parts;
mod ranges;
mod sizes;

pub use memory::NodeMemory;
pub use mote_types::fault::BootFault;
pub use parts::is_memory_call;
pub use ranges::LONGEST_READ;
pub use sizes::Sizes;
