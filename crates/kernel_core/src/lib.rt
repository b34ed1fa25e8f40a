//! The kernel: one machine of processes, events and a clock, worked off step by step.
#![tactic(auto)]

pub mod all_runs;
pub mod awaiting_kernel;
mod boot;
pub mod by_value;
mod call_kind;
mod calls;
pub mod config;
mod event_calls;
mod event_laws;
mod heap_calls;
mod idle_round;
mod inputs;
pub mod kernel;
mod kernel_fields;
mod kernel_processes;
mod managed_calls;
mod memory_laws;
mod open_turns;
mod packet_calls;
mod packet_process;
mod pending_entries;
pub mod poll_laws;
mod process_calls;
pub mod running_kernel;
mod serial_process;
pub mod step;
mod timer_calls;
mod timer_processes;
pub mod turn;
mod work_to_entry;

pub use mote_types::fault::BootFault;
