//! What pictures of a network show, from the lines of its transcript: the reader of these lines, the frames that were sent as a capture,
//! and which send each arrival belongs to.

pub mod capture;
pub mod flights;
pub mod line;
mod numbers;
mod walk;

pub use capture::{CaptureFault, capture_of};
pub use flights::{Fate, Flight, Flights, Link, flights_of};
pub use line::{NetworkLine, read_network_line};
