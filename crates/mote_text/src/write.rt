//! All bytes out, in as many writes as it takes.

ghost use Rattle.std.specs.Prelude.{◌≡◌, ◌<◌, ◌-◌, ◌^◌, ◌++◌, ℕ, take, OnOk, OnErr};
ghost use Rattle.mote_text.specs.Code.Writing.{CountsFailure};

use mote_types::device::ByteSink;
use mote_types::fault::DeviceFault;

/// Writes all bytes. If a write fails, a prefix of them was written.
// Not inlined: many lines are written at once, so it is called seldom.
#[inline(never)]
pub fn write_all<K: ByteSink>(sink: &mut K, bytes: &[u8]) -> Result<(), DeviceFault>
    requires countable { K.failure_count sink.old < 2 ^ 64 - 1 }
    ensures given { OnOk result (K.is_named → K.given sink.new ≡ K.given sink.old ++ bytes.now) }
    ensures prefix { OnErr result (K.is_named → (n : ℕ) × (K.given sink.new ≡ K.given sink.old ++ take n bytes.now)) }
    ensures failures { CountsFailure result (K.failure_count sink.old) (K.failure_count sink.new) }
{
    let mut done = 0;
    while done < bytes.len() {
        let count = sink.write(&bytes[done..])?;
        done += count;
    }
    Ok(())
}
