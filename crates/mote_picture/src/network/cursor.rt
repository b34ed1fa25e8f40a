//! Bytes that are read in order.

/// The bytes of a frame, at most. Each header has at least one, so a frame has fewer headers.
pub(crate) const MOST_BYTES: usize = 127;

/// What is left of bytes that are read from their beginning on.
#[derive(Clone, Copy, Drop)]
pub(crate) struct Cursor<'a> {
    left: &'a [u8],
}

impl<'a> Cursor<'a> {
    pub(crate) fn new(bytes: &'a [u8]) -> Self {
        Cursor { left: bytes }
    }

    /// The next bytes; `None` where fewer are left.
    pub(crate) fn take(&mut self, count: usize) -> Option<&'a [u8]> {
        if count > self.left.len() {
            return None;
        }
        let (taken, left) = self.left.split_at(count);
        self.left = left;
        Some(taken)
    }

    pub(crate) fn byte(&mut self) -> Option<u8> {
        self.take(1)?.first().copied()
    }

    /// A number of two bytes, the high one first.
    pub(crate) fn number(&mut self) -> Option<u16> {
        let high = self.byte()?;
        let low = self.byte()?;
        Some(high as u16 * 256 + low as u16)
    }

    /// All bytes that are left.
    pub(crate) fn rest(&self) -> &'a [u8] {
        self.left
    }
}
