//! The devices of a mote: the serial line, whose bytes leave as lines, and the frames that have arrived.
#![tactic(auto)]

mod byte_ring;
pub mod frame;
pub mod packet_queue;
pub mod serial_line;
