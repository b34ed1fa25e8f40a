//! Small applications, each with the table of what it says.
#![tactic(auto)]

pub mod blink;
pub mod bundled;
mod calls;
pub mod chaos;
pub mod churn;
pub mod echo;
pub mod hello;
pub mod ping;
pub mod relay;
pub mod steps;
