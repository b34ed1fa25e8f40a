//! The source of a script's bytes, and the sink of a transcript's.

ghost use Rattle.std.specs.Prelude.{◌≡◌, ◌≤◌, ◌<◌, ◌+◌, ◌-◌, ◌^◌, ◌++◌, ℕ, Bool, false, nat_eq, List, length, take, IfOk, OnOk, OnErr};

use crate::fault::DeviceFault;

/// A source of bytes.
pub trait ByteSource {
    /// Whether the source names its bytes. Of one that does not (a file, a terminal) nothing is said of the bytes.
    ghost is_named: { Type 0 };

    /// The bytes that were read so far.
    ghost taken: { Self → List ℕ };

    /// Whether the end was read.
    ghost is_ended: { Self → Bool };

    /// How often a read failed.
    ghost failure_count: { Self → ℕ };

    /// How often a read failed so far.
    fn failures(&self) -> u64
        ensures { result ≡ failure_count self.now };

    /// Fills a prefix of the buffer, and returns its length. 0 means the end, after which nothing is read.
    fn read(&mut self, buffer: &mut [u8]) -> Result<usize, DeviceFault>
        requires room { 0 < length buffer.old }
        requires unended { is_ended self.old ≡ false }
        requires countable { failure_count self.old < 2 ^ 64 - 1 }
        ensures front { IfOk result (λ n. n ≤ length buffer.new) }
        ensures taken { IfOk result (λ n. is_named → taken self.new ≡ taken self.old ++ take n buffer.new) }
        ensures ended { IfOk result (λ n. is_ended self.new ≡ nat_eq n 0) }
        ensures succeeded { OnOk result (failure_count self.new ≡ failure_count self.old) }
        ensures failed { OnErr result (failure_count self.new ≡ failure_count self.old + 1) }
        ensures nothing_taken { OnErr result (is_named → taken self.new ≡ taken self.old) }
        ensures unended { OnErr result (is_ended self.new ≡ is_ended self.old) };
}

/// Bytes go there.
pub trait ByteSink {
    /// Whether the sink names its bytes. Of one that does not (a file, a terminal) nothing is said of the bytes.
    ghost is_named: { Type 0 };

    /// The bytes that were written so far.
    ghost given: { Self → List ℕ };

    /// How often a write failed.
    ghost failure_count: { Self → ℕ };

    /// How often a write failed so far.
    fn failures(&self) -> u64
        ensures { result ≡ failure_count self.now };

    /// Writes a prefix of the bytes, at least one, and returns its length.
    fn write(&mut self, bytes: &[u8]) -> Result<usize, DeviceFault>
        requires some { 0 < length bytes.now }
        requires countable { failure_count self.old < 2 ^ 64 - 1 }
        ensures least { IfOk result (λ n. 0 < n) }
        ensures front { IfOk result (λ n. n ≤ length bytes.now) }
        ensures given { IfOk result (λ n. is_named → given self.new ≡ given self.old ++ take n bytes.now) }
        ensures succeeded { OnOk result (failure_count self.new ≡ failure_count self.old) }
        ensures failed { OnErr result (failure_count self.new ≡ failure_count self.old + 1) }
        ensures nothing_given { OnErr result (is_named → given self.new ≡ given self.old) };
}
