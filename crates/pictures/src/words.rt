//! The words of a picture for what a transcript's lines say.

mod bytes;
mod calls;
mod inputs;
mod replies;
mod stimuli;

pub use bytes::bytes_in;
pub use calls::push_call;
pub use inputs::{push_ending, push_input, push_note};
pub use replies::{push_reply, refusal_in};
pub use stimuli::push_stimulus;
