//! Calls with bytes, written into the caller's buffer.

ghost use Rattle.std.specs.Prelude.{◌≡◌, ◌≤◌, length};
ghost use Rattle.mote_types.specs.declared.call.Call as call_of;

use mote_types::call::Call;
use mote_types::reply::Chunk;

/// Writes the call that prints these bytes into the buffer, with the bytes at once.
// A function of its own, since it has room for bytes, which is cleared at its entry.
#[inline(never)]
pub(crate) fn put_print(call: &mut Call, bytes: &[u8])
    requires { length bytes.now ≤ 64 }
    ensures { call.new ≡ call_of.Call.Print (record { items = bytes.now }) }
{
    *call = Call::Print(Chunk::new());
    match call {
        Call::Print(chunk) => {
            let _ = chunk.try_extend_from_slice(bytes);
        }
        _ => unreachable!(),
    }
}

/// Writes the call that writes these bytes into managed block 0, from an offset on, into the buffer.
// Likewise.
#[inline(never)]
pub(crate) fn put_write(call: &mut Call, at: u32, bytes: &[u8])
    requires { length bytes.now ≤ 64 }
    ensures { call.new ≡ call_of.Call.MmemWrite 0 at (record { items = bytes.now }) }
{
    *call = Call::MmemWrite(0, at, Chunk::new());
    match call {
        Call::MmemWrite(_, _, chunk) => {
            let _ = chunk.try_extend_from_slice(bytes);
        }
        _ => unreachable!(),
    }
}
