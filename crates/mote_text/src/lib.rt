//! The texts of a mote: lines of a script to inputs, entries of a transcript to lines.
#![tactic(auto)]

pub mod by_value;
mod calls;
mod hex_blocks;
pub mod hex_digits;
pub mod numbers;
pub mod output_buffer;
mod page;
pub mod script;
pub mod script_lines;
pub mod transcript;
mod words;
pub mod write;
