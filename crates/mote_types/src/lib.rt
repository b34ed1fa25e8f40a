//! The types that all layers of the mote share, and what an application, a source and a sink of bytes are. For authors of
//! applications also the bytes of a chunk, numbers in decimal, the latest of many readings, and applications by their names.
#![tactic(auto)]

pub mod app;
pub mod ask;
pub mod block_name;
pub mod call;
pub mod chunk;
pub mod device;
pub mod entry;
pub mod event;
pub mod fault;
pub mod from_name;
pub mod refusal;
pub mod reply;
pub mod rounding;
pub mod window;

pub use chunk::{chunk_of, number_line, push_bytes, push_decimal, same_bytes};
pub use from_name::FromName;
pub use window::push_latest;
