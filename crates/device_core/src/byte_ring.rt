//! Serial bytes in a ring, and the line that has begun.

ghost use Rattle.std.specs.Prelude.{◌≡◌, ◌<◌, length, [], ◌≤◌, true, IfOk};
ghost use Rattle.std.specs.Option.{option_map};
ghost use Rattle.device_core.specs.SerialLine.{quiet_line, after_byte, after_bytes, line_of, next_line, after_line};
ghost use Rattle.device_core.specs.Code.Taking.{is_quiet, takes_all};
ghost use Rattle.device_core.specs.Code.WholeLines.{in_ring};

use crate::serial_line::Line;
use arrayvec::ArrayVec;
use circular_buffer::HeapCircularBuffer;
use std::alloc::{AllocError, Global};
use std::marker::Model;

/// The number of bytes that the ring holds.
pub(crate) const RING_PLACES: usize = 127;

pub(crate) const LINE_END: u8 = 10;

/// This byte is ignored.
pub(crate) const CARRIAGE_RETURN: u8 = 13;

/// The bytes that arrived on the serial line, in a ring, and the line that has begun.
#[derive(Drop)]
pub(crate) struct ByteRing {
    ring: HeapCircularBuffer<u8>,
    overflow: bool,
    line: Line,
}

impl Model for ByteRing {
    ghost use Rattle.std.specs.Prelude.{◌≡◌, ◌≤◌, length};
    ghost use Rattle.mote_types.specs.Limits.{ring_places, line_bytes};
    ghost use Rattle.device_core.specs.SerialLine.{SerialLine as SerialState};

    ghost Value = { SerialState };

    ghost view = { λ s. record { ring = s.ring.items; overflow = s.overflow; line = s.line.items } };

    ghost invariant = { λ s. (s.ring.capacity ≡ ring_places) × (length s.line.items ≤ line_bytes) };
}

impl ByteRing {
    /// A line on which nothing has arrived. Allocates only the ring's 127 bytes; where they are refused there is none.
    pub(crate) fn new(alloc: Global) -> Result<ByteRing, AllocError>
        ensures { IfOk result (λ serial. serial ≡ quiet_line) }
    {
        let ring = HeapCircularBuffer::with_capacity(alloc, RING_PLACES)?;
        Ok(ByteRing {
            ring,
            overflow: false,
            line: ArrayVec::new(),
        })
    }

    /// Takes the bytes into the ring, one after another.
    pub(crate) fn input(&mut self, bytes: &[u8])
        ensures { self.new ≡ after_bytes self.old bytes.now }
    {
        if self.takes_all(bytes) {
            let _ = self.ring.fill_from_slice(bytes);
        } else {
            self.take_each(bytes);
        }
    }

    /// Whether, outside the overflow state, none of these bytes is ignored or lost: then they go into the ring together.
    fn takes_all(&self, bytes: &[u8]) -> bool
        ensures { result ≡ takes_all self.now bytes.now }
    {
        !self.overflow
            && bytes.len() <= RING_PLACES - self.ring.len()
            && !bytes.contains(&CARRIAGE_RETURN)
    }

    fn take_each(&mut self, bytes: &[u8])
        ensures { self.new ≡ after_bytes self.old bytes.now }
    {
        for byte in bytes {
            self.take(*byte);
        }
    }

    fn take(&mut self, byte: u8)
        ensures { self.new ≡ after_byte self.old byte }
    {
        if byte == CARRIAGE_RETURN {
            return;
        }
        if self.ring.len() == RING_PLACES {
            self.overflow = true;
            return;
        }
        if !self.overflow || byte == LINE_END {
            let _ = self.ring.push_back(byte);
            self.overflow = false;
        }
    }

    /// The next whole line, without its end; what follows it stays in the ring. Of a longer line the first 127 bytes are
    /// preserved.
    ///
    /// `None` exactly where no whole line is left. Then the ring is empty: all its bytes have gone into the line that has
    /// begun, as far as it has room.
    pub(crate) fn serve(&mut self) -> Option<Line>
        ensures answer { result ≡ option_map line_of (next_line self.old) }
        ensures rest { self.new ≡ after_line self.old }
    {
        while let Some(byte) = self.ring.pop_front() {
            if byte == LINE_END {
                return Some(self.line.take());
            }
            let _ = self.line.try_push(byte);
        }
        None
    }

    /// Whether nothing waits, no line has begun, and no byte was lost since the last line end.
    pub(crate) fn is_quiet(&self) -> bool
        ensures { result ≡ is_quiet self.now }
    {
        !self.overflow && self.ring.is_empty() && self.line.is_empty()
    }

    /// Begins a line with these bytes.
    pub(crate) fn begin_line(&mut self, bytes: &[u8])
        requires quiet { is_quiet self.old ≡ true }
        requires room { length bytes.now ≤ 127 }
        ensures { self.new ≡ record quiet_line { line = bytes.now } }
    {
        let _ = self.line.try_extend_from_slice(bytes);
    }

    /// The line that has begun. Then no line has.
    pub(crate) fn take_line(&mut self) -> Line
        ensures answer { result ≡ line_of self.old.line }
        ensures rest { self.new ≡ record self.old { line = [] } }
    {
        self.line.take()
    }

    /// Puts the line that has begun, and its end, into the empty ring. Then no line has begun.
    pub(crate) fn put_line_into_ring(&mut self)
        requires empty { self.old.ring ≡ [] }
        requires room { length self.old.line < 127 }
        ensures { self.new ≡ in_ring self.old }
    {
        let _ = self.ring.fill_from_slice(self.line.as_slice());
        let _ = self.ring.push_back(LINE_END);
        self.line.clear();
    }
}
