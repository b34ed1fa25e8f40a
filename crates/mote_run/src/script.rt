//! A script as far as it was read and used.

ghost use Rattle.std.specs.Prelude.{◌≡◌, ◌<◌, ◌+◌, [], ℕ, List, true, length, IfOk, OnOk};
ghost use Rattle.mote_types.specs.declared.entry.Input.{Input as Handed};
ghost use Rattle.mote_text.specs.Code.Lines.{nothing_taken};
ghost use Rattle.mote_run.specs.Code.Reading.{CanBeFed, IsReady, ReadSoFar, Takes};

use crate::piece::Piece;
use crate::reader::Reader;
use mote_text::script::{BadLine, SCRIPT_LIMIT};

/// The most bytes of a script.
pub const LIMIT: usize = SCRIPT_LIMIT as usize;

/// The bytes that were read and aren't used yet, the reader of its lines, and how many bytes were used.
#[derive(Drop)]
pub struct Script {
    pub piece: Piece,
    pub reader: Reader,
    pub taken: usize,
}

impl Script {
    /// Before anything was read.
    pub fn new() -> Self
        ensures piece { result.piece ≡ [] }
        ensures lines { result.reader.lines ≡ nothing_taken }
        ensures number { result.reader.number ≡ 1 }
        ensures taken { result.taken ≡ 0 }
    {
        Script {
            piece: Piece::new(),
            reader: Reader::new(),
            taken: 0,
        }
    }

    /// Uses bytes of the piece up to the end of the present line. Returns whether they say an input, which is in the
    /// reader's `input` then.
    ///
    /// # Errors
    ///
    /// `BadLine` if the line is malformed, or as soon as it is longer than a line may be.
    pub fn take(&mut self) -> Result<bool, BadLine>
        requires ready { IsReady self.old }
        requires room { self.old.taken < LIMIT }
        requires some { 0 < length self.old.piece }
        ensures takes { (read : List ℕ) (earlier : List Handed) → ReadSoFar read earlier self.old → Takes read earlier self.new result }
        ensures input { IfOk result (λ is_input. is_input ≡ true → CanBeFed self.new.reader.input) }
        ensures ready { OnOk result (IsReady self.new) }
        ensures some { OnOk result (self.old.taken < self.new.taken) }
        ensures bytes { self.new.taken + length self.new.piece ≡ self.old.taken + length self.old.piece }
    {
        let (used, says) = self.reader.take(self.piece.first(LIMIT - self.taken));
        self.piece.skip(used);
        self.taken += used;
        says
    }
}
