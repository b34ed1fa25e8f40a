//! The medium of a network of motes: who hears whom, when, and which frames are lost.
//!
//! It knows no mote, only numbers: a frame is sent by its sender's number, and arrives at its receiver's.
#![tactic(auto)]

pub mod fault;
pub mod flight;
mod flight_heap;
mod flights;
pub mod laws;
pub mod link;
pub mod medium;
mod numbered;

pub use flights::Arriving;
