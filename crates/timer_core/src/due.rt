//! What has run out.

use mote_types::event::Pid;

/// A timer whose deadline has come.
#[derive(Drop)]
pub enum Due {
    /// An event timer.
    Timer { pid: Pid, number: u8 },
    /// A callback timer, and the number of its present arming. The expiry counts only while that number is the present
    /// one.
    Callback { pid: Pid, number: u8, arming: u64 },
}
