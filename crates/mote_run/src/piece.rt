//! The bytes of a script that were read and are not used yet.

ghost use Rattle.std.specs.Prelude.{◌≡◌, ◌<◌, ◌≤◌, ◌+◌, ◌-◌, ◌^◌, ◌++◌, ◌==◌, [], false, length, take, drop, IfErr, OnErr, OnOk};

use mote_types::device::ByteSource;
use mote_types::fault::RunFault;
use std::marker::Model;

/// The most bytes that are read at once.
const PIECE_LIMIT: usize = 4_096;

/// A piece of a script, of which a prefix was used.
#[derive(Drop)]
pub struct Piece {
    bytes: [u8; PIECE_LIMIT],
    used: usize,
    end: usize,
}

impl Model for Piece {
    ghost use Rattle.std.specs.Prelude.{◌≤◌, ℕ, List, slice_range};

    ghost Value = { List ℕ };

    ghost view = { λ piece. slice_range piece.bytes piece.used piece.end };

    ghost invariant = { λ piece. (piece.used ≤ piece.end) × (piece.end ≤ 4096) };
}

impl Piece {
    /// Before anything was read.
    pub fn new() -> Self
        ensures { result ≡ [] }
    {
        Piece {
            bytes: [0; PIECE_LIMIT],
            used: 0,
            end: 0,
        }
    }

    /// Whether all of it was used.
    pub fn is_empty(&self) -> bool
        ensures { result ≡ (length self.now == 0) }
    {
        self.used == self.end
    }

    /// Its next bytes, at most `most`.
    pub fn first(&self, most: usize) -> &[u8]
        ensures { result.now ≡ take most self.now }
    {
        let rest = &self.bytes[self.used..self.end];
        &rest[..rest.len().min(most)]
    }

    /// Its next bytes were used.
    pub fn skip(&mut self, count: usize)
        requires { count ≤ length self.old }
        ensures { self.new ≡ drop count self.old }
    {
        self.used += count;
    }

    /// Reads the next piece, of at most `most` bytes, in place of this one. An empty piece is the script's end.
    pub fn read<S: ByteSource>(&mut self, source: &mut S, most: usize) -> Result<(), RunFault>
        requires some { 0 < most }
        requires unended { S.is_ended source.old ≡ false }
        requires countable { S.failure_count source.old < 2 ^ 64 - 1 }
        ensures taken { OnOk result (S.is_named → S.taken source.new ≡ S.taken source.old ++ self.new) }
        ensures few { OnOk result (length self.new ≤ most) }
        ensures piece_limit { OnOk result (length self.new ≤ 4096) }
        ensures ended { OnOk result (S.is_ended source.new ≡ (length self.new == 0)) }
        ensures succeeded { OnOk result (S.failure_count source.new ≡ S.failure_count source.old) }
        ensures fault { IfErr result (λ fault. fault ≡ RunFault.Read) }
        ensures failed { OnErr result (S.failure_count source.new ≡ S.failure_count source.old + 1) }
        ensures nothing_taken { OnErr result (S.is_named → S.taken source.new ≡ S.taken source.old) }
    {
        self.used = 0;
        self.end = 0;
        let room = most.min(PIECE_LIMIT);
        match source.read(&mut self.bytes[..room]) {
            Ok(count) => {
                self.end = count;
                Ok(())
            }
            Err(_) => Err(RunFault::Read),
        }
    }
}
