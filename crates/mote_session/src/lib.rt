//! A mote used step by step: its caller asks for the next step, feeds inputs, and submits the calls of the applications.
#![tactic(auto)]

pub mod call_source;
pub mod caller;
mod last_entry;
pub mod laws;
pub mod refusal;
pub mod session;

pub use kernel_core::config::Config;
pub use mote_types::fault::BootFault;
