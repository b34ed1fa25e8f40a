//! Which entry was made last.

/// Which of the two buffers has the last entry, if one was made.
#[derive(Clone, Copy, Drop)]
pub enum LastEntry {
    /// No entry was made, or the last turn awaits its call.
    Missing,
    /// A turn, in the buffer for turns.
    Turn,
    /// Another entry, in the buffer for those.
    Other,
}
