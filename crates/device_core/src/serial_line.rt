//! The serial line: bytes arrive, and leave as lines.

ghost use Rattle.std.specs.Prelude.{◌≡◌, ◌<◌, length, IfOk, OnSome, false};
ghost use Rattle.std.specs.Option.{option_map};
ghost use Rattle.device_core.specs.SerialLine.{quiet_line, after_bytes, line_of, next_line, after_line};
ghost use Rattle.device_core.specs.Code.WholeLines.{has_low_byte, is_one_line};

use crate::byte_ring::{ByteRing, CARRIAGE_RETURN, LINE_END, RING_PLACES};
use arrayvec::ArrayVec;
use std::alloc::{AllocError, Global};
use std::marker::Model;

/// A line without its end: at most 127 bytes.
pub type Line = ArrayVec<u8, 127>;

/// The bytes that arrived on the serial line, and the line that has begun.
///
/// Source: serial-line.h of Contiki-NG, with its ring, its overflow state, and its limit of 127 bytes for both the ring
/// and a line.
#[derive(Drop)]
pub struct SerialLine {
    bytes: ByteRing,
    /// A whole line arrived at once, and nothing else waits. It is stored without its end, where a line that has begun is: most
    /// lines arrive and leave so, and never pass through the ring.
    is_whole: bool,
}

impl Model for SerialLine {
    ghost use Rattle.std.specs.Prelude.{◌≡◌, true};
    ghost use Rattle.device_core.specs.SerialLine.{SerialLine as SerialState};
    ghost use Rattle.device_core.specs.Code.WholeLines.{IsWholeLine, state_of};

    ghost Value = { SerialState };

    ghost view = { λ s. state_of s.is_whole s.bytes };

    ghost invariant = { λ s. s.is_whole ≡ true → IsWholeLine s.bytes };
}

/// Whether one of these bytes is at most 13: a line end, a byte that is ignored, or another of the first control characters.
fn has_low_byte(bytes: &[u8]) -> bool
    ensures { result ≡ has_low_byte bytes.now }
{
    bytes.iter().any(|byte| *byte <= CARRIAGE_RETURN)
}

/// Whether these bytes are a line and its end, for which the ring has room. A line with another low byte counts as none: so one
/// comparison a byte is enough.
fn is_one_line(bytes: &[u8]) -> bool
    ensures { result ≡ is_one_line bytes.now }
{
    if bytes.is_empty() || bytes.len() > RING_PLACES {
        return false;
    }
    let last = bytes.len() - 1;
    bytes[last] == LINE_END && !has_low_byte(&bytes[..last])
}

impl SerialLine {
    /// A line on which nothing has arrived. Allocates only the ring's 127 bytes; where they are refused there is no
    /// serial line.
    pub fn new(alloc: Global) -> Result<SerialLine, AllocError>
        ensures { IfOk result (λ serial. serial ≡ quiet_line) }
    {
        let bytes = ByteRing::new(alloc)?;
        Ok(SerialLine {
            bytes,
            is_whole: false,
        })
    }

    /// Takes the bytes into the ring, one after another (`serial_line_input_byte`).
    ///
    /// Byte 13 is ignored. A byte that finds the ring full is lost, and from then on every byte is, until a line end (10)
    /// that fits.
    pub fn input(&mut self, bytes: &[u8])
        ensures { self.new ≡ after_bytes self.old bytes.now }
    {
        if !self.is_whole && self.bytes.is_quiet() && is_one_line(bytes) {
            self.bytes.begin_line(&bytes[..bytes.len() - 1]);
            self.is_whole = true;
        } else {
            self.input_through_ring(bytes);
        }
    }

    // Out of line: few inputs need it.
    #[inline(never)]
    fn input_through_ring(&mut self, bytes: &[u8])
        ensures { self.new ≡ after_bytes self.old bytes.now }
    {
        if self.is_whole {
            self.bytes.put_line_into_ring();
            self.is_whole = false;
        }
        self.bytes.input(bytes);
    }

    /// The next whole line, without its end; what follows it stays in the ring. Of a longer line the first 127 bytes are
    /// preserved.
    ///
    /// `None` exactly where no whole line is left. Then the ring is empty: all its bytes have gone into the line that has
    /// begun, as far as it has room.
    pub fn serve(&mut self) -> Option<Line>
        ensures answer { result ≡ option_map line_of (next_line self.old) }
        ensures rest { self.new ≡ after_line self.old }
        // so a caller that serves all lines terminates
        ensures shorter { OnSome result (length self.new.ring < length self.old.ring) }
    {
        if self.is_whole {
            self.is_whole = false;
            return Some(self.bytes.take_line());
        }
        self.bytes.serve()
    }
}
