//! Managed memory: blocks named by handles, which slide together so that no room is lost to holes.
//!
//! Its users see a map from handles of processes to bytes. Only `Mmem::slid` shows that blocks move. A freed block leaves a
//! hole. A new one is put after the last; only where the space there is too short, all blocks slide together first.
//!
//! Where each process has a quota, what is free for it depends only on its own blocks.
#![tactic(auto)]

mod mmem;
mod order;
mod place;
mod place_table;
mod quotas;

pub use mmem::Mmem;
pub use mote_types::block_name::Key;
