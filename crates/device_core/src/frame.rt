//! A frame that has arrived.

ghost use Rattle.std.specs.Prelude.{◌≡◌};

/// A held frame: the slot of its bytes, and their number (this project's profile).
#[derive(Clone, Copy, Drop)]
pub struct Frame {
    /// From 0 to 7: the handle of the managed block of process 3 (packet) that has the bytes.
    pub slot: u8,
    /// In bytes.
    pub len: u8,
}

// The positions of the queue that hold no frame.
impl Default for Frame {
    ghost is_default = { λ frame. frame ≡ record { slot = 0; len = 0 } };

    fn default() -> Self {
        Frame { slot: 0, len: 0 }
    }
}
