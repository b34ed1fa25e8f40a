//! What pictures are made of, from the lines of a transcript: the reader of these lines, which of them share a row, what rows show
//! together, the memory that calls take, the words for what a line says, and what holds at each line; of a network the frames on
//! their way; and the picture of a run as SVG.
#![tactic(auto)]

pub mod dump;
pub mod facts;
pub mod marks;
pub mod memory;
pub mod network;
mod numbers;
pub mod rows;
mod spans;
pub mod svg;
pub mod transcript;
pub mod words;
