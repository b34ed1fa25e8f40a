//! What a malformed line should be that sets a network up.

ghost use Rattle.std.specs.Prelude.{MatchOption};
ghost use Rattle.mote_kit.specs.Forms.{SetsUp};

use crate::run_file::forms::{FORM_WITH_LOSSES, form_of, says_losses};
use crate::run_file::line::Line;

/// What a line should be, by its first word, if that sets a network up: another text where the line says which frames are lost.
pub fn setup_form(line: Line<'_>) -> Option<&'static str>
    ensures { MatchOption result (SetsUp line.entry.word.now → ⊥) (λ _. SetsUp line.entry.word.now) }
{
    let has_links = matches!(line.word, "link" | "line" | "mesh" | "ring" | "grid");
    if has_links && says_losses(line.text) {
        Some(FORM_WITH_LOSSES)
    } else {
        form_of(line.word)
    }
}
