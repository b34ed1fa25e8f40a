//! What an open network has.

use mote_text::output_buffer::OutputBuffer;
use network_steps::steps::NetworkSteps;

/// A network that reports what happens, and room for a line of its transcript.
#[derive(Drop)]
pub struct OpenNetwork {
    pub steps: NetworkSteps,
    pub line: OutputBuffer,
}
