//! The run of a network: the lines of its script in, its transcript out.
#![tactic(auto)]

pub mod fault;
mod input;
pub mod laws;
mod reports;
pub mod run;
mod script;
