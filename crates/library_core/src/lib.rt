//! What the library for C does: reads the plain numbers and bytes of C as the machine's types, reports in such numbers and bytes, and
//! keeps the motes and networks that C holds. `toarmuts` exports its calls to C, which only a static library can; no crate can use one.
//!
//! C passes a mote by its address, and can neither read nor copy it: all raw pointers that C holds are in `mote`, `held_network` and
//! `unboxed`.
#![tactic(auto)]

pub mod application;
pub mod bundled_turn;
pub mod call;
pub mod configuration;
pub mod held_network;
pub mod in_network;
pub mod in_session;
pub mod input;
mod kind;
mod lines;
mod list_reason;
pub mod mote;
pub mod open_mote;
pub mod open_network;
pub mod outcome;
pub mod plain_network;
pub mod refusal;
pub mod running;
mod sizes;
pub mod status;
mod tick_line;
pub mod turn;
mod unboxed;
