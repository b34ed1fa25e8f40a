//! A network of motes, asked step by step: one clock, a medium, and motes whose calls the caller answers.
#![tactic(auto)]

pub mod alarm;
mod alarms;
pub mod fault;
pub mod laws;
pub mod network;
pub mod outcome;
mod tournament;
mod waking;
