//! The scheduler of a mote: processes, the event queue, and the agenda of pending work.
#![tactic(auto)]

pub mod by_value;
mod front;
mod giving;
mod idle;
pub mod job;
mod lone_poll;
mod marks;
pub mod next_job;
pub mod open_work;
mod posting;
mod process;
mod process_list;
mod process_numbers;
mod queued;
mod receivers;
mod requests;
pub mod scheduler;
mod scheduler_fields;
mod state;
mod steps;
mod turns;
pub mod walk;
