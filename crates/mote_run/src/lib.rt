//! The run of a mote: script bytes in, transcript bytes out.
#![tactic(auto)]

pub mod law;
mod lines;
pub mod mote;
mod piece;
mod reader;
mod refill;
pub mod run;
mod running_mote;
mod script;
mod take_script;

pub use mote_text::script::End;
pub use mote_types::fault;
