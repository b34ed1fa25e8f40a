//! Event timers and callback timers of the applications: their cells and one list of those that are armed.
//!
//! Names are in range by condition: applications are the processes 4 to 19, timers 0 to 7, callback timers 0 to 3.
#![tactic(auto)]

pub mod due;
mod numbers;
mod table;
pub mod timer;
pub mod timers;
mod watched;
