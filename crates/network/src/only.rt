//! The lines of one mote: the part of a transcript that `--only` asks for.

ghost use Rattle.std.specs.Prelude.{◌≡◌, []};

use mote_text::output_buffer::OutputBuffer;
use mote_types::device::ByteSink;
use mote_types::fault::DeviceFault;
use std::io::Write;

/// Where in a line of a network's transcript the next byte stands.
#[derive(Clone, Copy, Drop)]
enum Place {
    Start,
    /// In the number of a mote, after digits of this value.
    Number(u64),
    /// In a line that is shown.
    Shown,
    /// In a line that is not.
    Hidden,
}

/// A writer of the lines of one mote, without its number, and of the line of a script that isn't executed.
#[derive(Drop)]
struct Filter<W> {
    writer: W,
    /// The mote's number.
    only: u32,
    place: Place,
}

/// The same as a sink.
#[derive(Drop)]
pub(crate) struct OnlyMote<W> {
    filter: Filter<W>,
    failed: u64,
}

impl Place {
    /// Where the byte after this one stands, if lines of the mote `only` are shown.
    fn after(self, byte: u8, only: u32) -> Self {
        match (self, byte) {
            (_, b'\n') => Place::Start,
            (Place::Shown, _) => Place::Shown,
            // Only `bad line N` and `too long` begin so.
            (Place::Start, b'b' | b't') => Place::Shown,
            (Place::Start, b'0'..=b'9') => Place::Number((byte - b'0') as u64),
            (Place::Number(number), b'0'..=b'9') => {
                Place::Number(number.wrapping_mul(10).wrapping_add((byte - b'0') as u64))
            }
            (Place::Number(number), b' ') if number == only as u64 => Place::Shown,
            _ => Place::Hidden,
        }
    }

    /// Whether this byte is shown.
    fn shows(self, byte: u8) -> bool {
        match self {
            Place::Start => byte == b'b' || byte == b't',
            Place::Shown => true,
            Place::Number(_) | Place::Hidden => false,
        }
    }
}

impl<W: Write> Filter<W> {
    /// Writes what is shown of these bytes.
    fn write_shown(&mut self, bytes: &[u8]) -> Result<(), DeviceFault> {
        let mut shown = OutputBuffer::new();
        for byte in bytes {
            if self.place.shows(*byte) {
                if shown.remaining_capacity() == 0 {
                    self.write_out(&mut shown)?;
                }
                shown.push(&[*byte]);
            }
            self.place = self.place.after(*byte, self.only);
        }
        self.write_out(&mut shown)
    }

    /// Writes all that is gathered.
    fn write_out(&mut self, shown: &mut OutputBuffer) -> Result<(), DeviceFault>
        ensures { shown.new.items ≡ [] }
    {
        let outcome = self.writer.write_all(shown.as_slice());
        shown.clear();
        match outcome {
            Ok(()) => Ok(()),
            Err(_) => Err(DeviceFault),
        }
    }
}

impl<W> OnlyMote<W> {
    pub(crate) fn new(writer: W, only: u32) -> Self
        ensures { result.failed ≡ 0 }
    {
        OnlyMote {
            filter: Filter {
                writer,
                only,
                place: Place::Start,
            },
            failed: 0,
        }
    }

    /// What it writes to.
    pub(crate) fn writer(&mut self) -> &mut W {
        &mut self.filter.writer
    }
}

impl<W: Write> ByteSink for OnlyMote<W> {
    ghost is_named = { ⊥ };

    ghost given = { λ _. [] };

    ghost failure_count = { λ sink. sink.failed };

    fn failures(&self) -> u64 {
        self.failed
    }

    fn write(&mut self, bytes: &[u8]) -> Result<usize, DeviceFault> {
        match self.filter.write_shown(bytes) {
            Ok(()) => Ok(bytes.len()),
            Err(fault) => {
                self.failed += 1;
                Err(fault)
            }
        }
    }
}
