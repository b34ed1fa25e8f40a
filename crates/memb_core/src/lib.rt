//! Pools of blocks of one size, and lists of a pool's blocks: `memb.h`, `list.h` and `queue.h` of Contiki-NG.
//!
//! The blocks are in an arena. Each has a link in its first 4 bytes, before its usable bytes: a list is linked through its
//! blocks, and takes no other memory. Only the usable bytes of a block are read and written, so no link shows.
#![tactic(auto)]

mod link;
mod list_name;
mod lists;
mod places;
mod pool;

pub use list_name::ListName;
pub use lists::Lists;
pub use pool::Pool;
