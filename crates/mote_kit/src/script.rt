//! A script in memory.

ghost use Rattle.std.specs.Prelude.{◌≡◌, ◌≤◌, ◌<◌, ◌+◌, ◌-◌, ◌^◌, ◌++◌, true, false, nat_eq, length, take, min, Some, None, option_map, IfOk, OnOk, OnErr};

use mote_types::device::ByteSource;
use mote_types::fault::DeviceFault;

/// A script in memory, read from its beginning. It names its bytes.
#[derive(Drop)]
pub struct Script<'a> {
    text: &'a [u8],
    /// The number of bytes read so far.
    position: usize,
    /// The largest number of bytes of one read.
    width: usize,
    /// The number of reads that succeed before one fails, where one does.
    reads_left: Option<u64>,
    ended: bool,
    failed: u64,
    ghost within: { position ≤ length text.now },
    ghost wide: { 0 < width },
    ghost at_end: { ended ≡ true → position ≡ length text.now },
}

impl<'a> Script<'a> {
    /// A script of these bytes. A read returns as many as there is room for, and none fails.
    pub fn new(text: &'a [u8]) -> Self
        ensures text { result.text.now ≡ text.entry.now }
        ensures position { result.position ≡ 0 }
        ensures width { result.width ≡ usize.MAX }
        ensures reads { result.reads_left ≡ None }
        ensures unended { result.ended ≡ false }
        ensures unfailed { result.failed ≡ 0 }
    {
        Script {
            text,
            position: 0,
            width: usize::MAX,
            reads_left: None,
            ended: false,
            failed: 0,
        }
    }

    /// The same script, where a read returns at most this number of bytes.
    pub fn in_pieces_of(mut self, width: usize) -> Self
        requires { 0 < width }
        ensures width { result.width ≡ width }
        ensures text { result.text ≡ self.entry.text }
        ensures position { result.position ≡ self.entry.position }
        ensures reads { result.reads_left ≡ self.entry.reads_left }
        ensures ended { result.ended ≡ self.entry.ended }
        ensures failed { result.failed ≡ self.entry.failed }
    {
        self.width = width;
        self
    }

    /// The same script, where the k-th read from now on fails, and each one after it. The first is number 1.
    pub fn failing_at(mut self, k: u64) -> Self
        requires { 0 < k }
        ensures reads { result.reads_left ≡ Some (k - 1) }
        ensures text { result.text ≡ self.entry.text }
        ensures position { result.position ≡ self.entry.position }
        ensures width { result.width ≡ self.entry.width }
        ensures ended { result.ended ≡ self.entry.ended }
        ensures failed { result.failed ≡ self.entry.failed }
    {
        self.reads_left = Some(k - 1);
        self
    }
}

impl ByteSource for Script<'_> {
    ghost is_named = { Unit {0} };

    ghost taken = { λ script. take script.position script.text.now };

    ghost is_ended = { λ script. script.ended };

    ghost failure_count = { λ script. script.failed };

    fn failures(&self) -> u64 {
        self.failed
    }

    /// Reads the next bytes: as many as are left, as there is room for, and as one read may return.
    ///
    /// # Errors
    ///
    /// Exactly where all reads that succeed were made. Nothing is taken then.
    fn read(&mut self, buffer: &mut [u8]) -> Result<usize, DeviceFault>
        requires room { 0 < length buffer.old }
        requires unended { self.old.ended ≡ false }
        requires countable { self.old.failed < 2 ^ 64 - 1 }
        ensures fails { OnErr result (self.old.reads_left ≡ Some 0) }
        ensures size { IfOk result (λ n. n ≡ min (min (length self.old.text.now - self.old.position) self.old.width) (length buffer.old)) }
        ensures reads { OnOk result (self.old.reads_left ≡ option_map (λ left. left + 1) self.new.reads_left) }
        ensures same_text { self.new.text ≡ self.old.text }
        ensures same_width { self.new.width ≡ self.old.width }
        ensures still_fails { OnErr result (self.new.reads_left ≡ Some 0) }
        ensures front { IfOk result (λ n. n ≤ length buffer.new) }
        ensures taken { IfOk result
            (λ n. Unit {0} → take self.new.position self.new.text.now ≡ take self.old.position self.old.text.now ++ take n buffer.new) }
        ensures ended { IfOk result (λ n. self.new.ended ≡ nat_eq n 0) }
        ensures succeeded { OnOk result (self.new.failed ≡ self.old.failed) }
        ensures failed { OnErr result (self.new.failed ≡ self.old.failed + 1) }
        ensures nothing_taken { OnErr result (Unit {0} → take self.new.position self.new.text.now ≡ take self.old.position self.old.text.now) }
        ensures same_position { OnErr result (self.new.position ≡ self.old.position) }
        ensures unended { OnErr result (self.new.ended ≡ self.old.ended) }
    {
        let reads_left = match self.reads_left {
            Some(0) => {
                self.failed += 1;
                return Err(DeviceFault);
            }
            Some(left) => Some(left - 1),
            None => None,
        };
        let rest = &self.text[self.position..];
        let size = rest.len().min(self.width).min(buffer.len());
        buffer[..size].copy_from_slice(&rest[..size]);
        self.reads_left = reads_left;
        self.position += size;
        self.ended = size == 0;
        Ok(size)
    }
}
