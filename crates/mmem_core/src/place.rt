//! The position of a block, and how it moves.

ghost use Rattle.std.specs.Prelude.{◌≡◌, ◌+◌, ◌≤◌, length, slice_range, Some};
ghost use Rattle.arena_core.specs.Code.Contents.{contents};
ghost use Rattle.arena_core.specs.Code.Written.{written};

use arena_core::{Arena, Span};
use mote_types::rounding::rounded;

/// The position of a block: its offset from the span's start, and its length. It takes its length rounded up.
#[derive(Clone, Copy, Drop)]
pub struct Place {
    pub at: u32,
    pub len: u32,
}

impl Place {
    ghost use Rattle.mmem_core.specs.Code.Places.{room_moved};

    /// The same block at another offset.
    pub(crate) fn moved_to(self, at: u32) -> Place
        ensures { result ≡ record { at = at; len = self.len } }
    {
        Place { at, len: self.len }
    }

    /// Moves the block's bytes down to another offset of the span. Returns the number of bytes moved: its length rounded
    /// up, or 0 if it is there already.
    pub(crate) fn slide_down(self, arena: &mut Arena, span: Span, to: u32) -> u64
        requires within { span.at + span.len ≤ length arena.old.bytes }
        requires inside { self.at + self.len ≤ span.len }
        requires down { to ≤ self.at }
        ensures bytes { arena.new
            ≡ contents (written arena.old.bytes (span.at + to)
            (slice_range arena.old.bytes (span.at + self.at) (span.at + self.at + self.len))) arena.old.carved }
        ensures moved { result ≡ room_moved (Some self) (Some (record { at = to; len = self.len })) }
    {
        if to == self.at {
            return 0;
        }
        arena.slide(span.at + self.at, span.at + to, self.len);
        rounded(self.len)
    }
}
