//! A transcript in memory.

ghost use Rattle.std.specs.Prelude.{◌≡◌, ◌≤◌, ◌<◌, ◌+◌, ◌-◌, ◌^◌, ◌++◌, [], length, take, min, Some, None, option_map, IfOk, OnOk, OnErr};

use mote_types::device::ByteSink;
use mote_types::fault::DeviceFault;
use std::alloc::Global;

/// A transcript in memory. It names its bytes.
#[derive(Drop)]
pub struct Transcript {
    /// The bytes that were written.
    pub text: Vec<u8>,
    /// The largest number of bytes of one write.
    width: usize,
    /// The number of writes that succeed before one fails, where one does.
    writes_left: Option<u64>,
    failed: u64,
    ghost wide: { 0 < width },
}

impl Transcript {
    /// An empty transcript. A write takes all bytes, and fails only where memory is refused.
    pub fn new(alloc: Global) -> Self
        ensures text { result.text.items ≡ [] }
        ensures width { result.width ≡ usize.MAX }
        ensures writes { result.writes_left ≡ None }
        ensures unfailed { result.failed ≡ 0 }
    {
        Transcript {
            text: Vec::new(alloc),
            width: usize::MAX,
            writes_left: None,
            failed: 0,
        }
    }

    /// The same transcript, where a write takes at most this number of bytes.
    pub fn in_pieces_of(mut self, width: usize) -> Self
        requires { 0 < width }
        ensures width { result.width ≡ width }
        ensures text { result.text.items ≡ self.text.items }
        ensures writes { result.writes_left ≡ self.writes_left }
        ensures failed { result.failed ≡ self.failed }
    {
        self.width = width;
        self
    }

    /// The same transcript, where the k-th write from now on fails, and each one after it. The first is number 1.
    pub fn failing_at(mut self, k: u64) -> Self
        requires { 0 < k }
        ensures writes { result.writes_left ≡ Some (k - 1) }
        ensures text { result.text.items ≡ self.text.items }
        ensures width { result.width ≡ self.width }
        ensures failed { result.failed ≡ self.failed }
    {
        self.writes_left = Some(k - 1);
        self
    }
}

impl ByteSink for Transcript {
    ghost is_named = { Unit {0} };

    ghost given = { λ transcript. transcript.text.items };

    ghost failure_count = { λ transcript. transcript.failed };

    fn failures(&self) -> u64 {
        self.failed
    }

    /// Takes as many bytes as one write takes.
    ///
    /// # Errors
    ///
    /// Where all writes that succeed were made, and where memory is refused. Nothing is written then.
    fn write(&mut self, bytes: &[u8]) -> Result<usize, DeviceFault>
        requires some { 0 < length bytes.now }
        requires countable { self.old.failed < 2 ^ 64 - 1 }
        ensures size { IfOk result (λ n. n ≡ min (length bytes.now) self.old.width) }
        ensures writes { OnOk result (self.old.writes_left ≡ option_map (λ left. left + 1) self.new.writes_left) }
        ensures same_width { self.new.width ≡ self.old.width }
        ensures still_fails { OnErr result (self.new.writes_left ≡ self.old.writes_left) }
        ensures least { IfOk result (λ n. 0 < n) }
        ensures front { IfOk result (λ n. n ≤ length bytes.now) }
        ensures given { IfOk result (λ n. self.new.text.items ≡ self.old.text.items ++ take n bytes.now) }
        ensures succeeded { OnOk result (self.new.failed ≡ self.old.failed) }
        ensures failed { OnErr result (self.new.failed ≡ self.old.failed + 1) }
        ensures nothing_given { OnErr result (self.new.text.items ≡ self.old.text.items) }
    {
        let front = bytes.len().min(self.width);
        let writes_left = match self.writes_left {
            Some(0) => {
                self.failed += 1;
                return Err(DeviceFault);
            }
            Some(left) => Some(left - 1),
            None => None,
        };
        if self.text.extend_from_slice(&bytes[..front]).is_err() {
            self.failed += 1;
            return Err(DeviceFault);
        }
        self.writes_left = writes_left;
        Ok(front)
    }
}
