//! The next piece of a script: before it is read, all pending output is written.

ghost use Rattle.std.specs.Prelude.{◌≡◌, ◌<◌, ◌≤◌, ◌+◌, ◌-◌, ◌^◌, ◌++◌, ◌==◌, ◌↔◌, [], ℕ, List, false, length, IsErrOf, OnErr, OnOk};
ghost use Rattle.mote_text.specs.Code.Writing.{WritesIf, WritesOn};

use crate::piece::Piece;
use mote_text::output_buffer::OutputBuffer;
use mote_types::device::{ByteSink, ByteSource};
use mote_types::fault::RunFault;

/// If the piece is used up, writes all pending output, and reads the next piece, of at most `most` bytes. If the piece is empty
/// then, the script has ended.
pub fn refill<S: ByteSource, K: ByteSink>(
    source: &mut S,
    sink: &mut K,
    text: &mut OutputBuffer,
    piece: &mut Piece,
    most: usize,
) -> Result<(), RunFault>
    requires some { 0 < most }
    requires unended { S.is_ended source.old ≡ false }
    requires countable_reads { S.failure_count source.old < 2 ^ 64 - 1 }
    requires countable_writes { K.failure_count sink.old < 2 ^ 64 - 1 }
    ensures taken { OnOk result ((read : List ℕ) × (S.is_named → S.taken source.new ≡ S.taken source.old ++ read)
        × (piece.new ≡ piece.old ++ read)) }
    ensures few { OnOk result (length piece.old ≤ most → length piece.new ≤ most) }
    ensures piece_limit { OnOk result (length piece.new ≤ length piece.old + 4096) }
    ensures left { OnOk result (0 < length piece.old → piece.new ≡ piece.old) }
    ensures ended { OnOk result (S.is_ended source.new ≡ (length piece.new == 0)) }
    ensures writes { K.is_named → WritesIf result (K.given sink.old) text.old.items (K.given sink.new) text.new.items [] }
    ensures used_up { OnErr result (length piece.old ≡ 0) }
    ensures nothing_taken { OnErr result (S.is_named → S.taken source.new ≡ S.taken source.old) }
    ensures written_first { IsErrOf result RunFault.Read → K.is_named
        → WritesOn (K.given sink.old) text.old.items (K.given sink.new) [] [] }
    ensures read_succeeded { OnOk result (S.failure_count source.new ≡ S.failure_count source.old) }
    ensures write_succeeded { OnOk result (K.failure_count sink.new ≡ K.failure_count sink.old) }
    ensures read_fault { IsErrOf result RunFault.Read ↔ (S.failure_count source.old < S.failure_count source.new) }
    ensures write_fault { IsErrOf result RunFault.Write ↔ (K.failure_count sink.old < K.failure_count sink.new) }
{
    if !piece.is_empty() {
        return Ok(());
    }
    text.flush(sink)?;
    piece.read(source, most)
}
