//! Networks that the first lines of a script set up, and their runs.
//!
//! `read_setup` promises that the lines up to the first input were executed, or which one is malformed, and `Setup::take_line` what each of
//! them sets up. `run_setup` promises what it writes of the network that was set up, what `network_run` promises, and that this network has
//! just booted. `run_script` puts them together: from the bytes of a script to the bytes of its transcript.
#![tactic(auto)]

mod applications;
mod carriage;
pub mod fault;
mod links;
mod mote_app;
pub mod run;
pub mod script;
pub mod script_run;
pub mod setup;
mod shape;
mod words;
