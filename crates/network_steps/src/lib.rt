//! A network of motes, one line of its transcript at a time: what the program `network` does with a script, in the hands of a caller; the
//! lines of a script to inputs, and what happens to the lines of a transcript.
#![tactic(auto)]

pub mod came;
pub mod came_lines;
mod fates;
pub mod fault;
mod giving;
pub mod input;
pub mod laws;
pub mod lines;
pub mod steps;
