//! The output buffer: lines of a transcript, gathered to be written at once.

ghost use Rattle.std.specs.Prelude.{◌≡◌, ◌≤◌, ◌<◌, ◌+◌, ◌-◌, ◌^◌, ◌++◌, [], length, OnOk};
ghost use Rattle.mote_text.specs.Code.Appending.{HasRoomOf};
ghost use Rattle.mote_text.specs.Code.Writing.{CountsFailure, WritesIf};

use crate::page::Page;
use crate::write::write_all;
use mote_types::device::ByteSink;
use mote_types::fault::DeviceFault;
use std::marker::Model;

/// No line of a transcript is longer, with its end.
pub const MOST_OF_LINE: usize = 640;

/// Lines of a transcript, up to so many bytes.
///
/// No `ArrayVec`: that writes blanks over all that it clears, and lends room for digits only after it has written blanks there.
#[derive(Drop)]
pub struct TextBuffer<const CAPACITY: usize> {
    pub(crate) page: Page<CAPACITY>,
    pub(crate) len: usize,
}

/// Pending output: lines of a transcript that were made and aren't written yet.
pub type OutputBuffer = TextBuffer<4_096>;

impl<const CAPACITY: usize> Model for TextBuffer<CAPACITY> {
    ghost use Rattle.std.specs.Prelude.{◌≤◌, ℕ, take};
    ghost use Rattle.arrayvec.specs.ArrayVec.{ArrayVec as Items};

    ghost Value = { Items ℕ };

    ghost view = { λ line. record { items = take line.len line.page.bytes } };

    ghost invariant = { λ line. line.len ≤ CAPACITY };
}

impl<const CAPACITY: usize> TextBuffer<CAPACITY> {
    #[inline(always)]
    pub fn new() -> Self
        ensures { result.items ≡ [] }
    {
        TextBuffer {
            page: Page::new(),
            len: 0,
        }
    }

    /// How many more bytes fit.
    #[inline]
    pub fn remaining_capacity(&self) -> usize
        ensures { result + length self.now.items ≡ CAPACITY }
    {
        CAPACITY - self.as_slice().len()
    }

    #[inline]
    pub fn as_slice(&self) -> &[u8]
        ensures value { result.now ≡ self.now.items }
        ensures fits { length result.now ≤ CAPACITY }
    {
        &self.page.bytes[..self.len]
    }

    #[inline]
    pub fn clear(&mut self)
        ensures { self.new.items ≡ [] }
    {
        self.len = 0;
    }

    /// Appends these bytes.
    #[inline(always)]
    pub fn push(&mut self, bytes: &[u8])
        requires { HasRoomOf CAPACITY self.old (length bytes.now) }
        ensures { self.new.items ≡ self.old.items ++ bytes.now }
    {
        self.len = self.page.put(self.len, bytes);
    }

    /// Writes all of it. If a write fails, a prefix was written.
    pub fn flush<K: ByteSink>(&mut self, sink: &mut K) -> Result<(), DeviceFault>
        requires countable { K.failure_count sink.old < 2 ^ 64 - 1 }
        ensures writes { K.is_named → WritesIf result (K.given sink.old) self.old.items (K.given sink.new) self.new.items [] }
        ensures empty { OnOk result (self.new.items ≡ []) }
        ensures failures { CountsFailure result (K.failure_count sink.old) (K.failure_count sink.new) }
    {
        write_all(sink, self.as_slice())?;
        self.clear();
        Ok(())
    }

    /// Writes all of it, if there is no room for `room` more bytes.
    // Each line asks for it.
    #[inline(always)]
    pub fn make_room<K: ByteSink>(&mut self, sink: &mut K, room: usize) -> Result<(), DeviceFault>
        requires some { room ≤ CAPACITY }
        requires countable { K.failure_count sink.old < 2 ^ 64 - 1 }
        ensures writes { K.is_named → WritesIf result (K.given sink.old) self.old.items (K.given sink.new) self.new.items [] }
        ensures room { OnOk result (HasRoomOf CAPACITY self.new room) }
        ensures failures { CountsFailure result (K.failure_count sink.old) (K.failure_count sink.new) }
    {
        if self.remaining_capacity() < room {
            self.flush(sink)?;
        }
        Ok(())
    }
}
