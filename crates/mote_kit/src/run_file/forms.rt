//! What a line that sets a network up should be, by its first word.
//!
//! Written by scripts/make-calls from interface/rules.json: change that file, and run the program again.

ghost use Rattle.std.specs.Prelude.{MatchOption};
ghost use Rattle.mote_kit.specs.Forms.{SetsUp};

/// What a line that begins with this word should be.
pub(crate) fn form_of(word: &str) -> Option<&'static str>
    ensures { MatchOption result (SetsUp word.now → ⊥) (λ _. SetsUp word.now) }
{
    match word {
        "mote" => Some(
            "mote N WORD.. sets up the next motes, N or N..M, as mote does with these words",
        ),
        "link" => Some("link A B delay D is for two motes that there are, and D is at least 1"),
        "line" | "mesh" => Some(
            "line and mesh N..M delay D are for motes that there are, and D is at least 1",
        ),
        "ring" => Some(
            "ring N..M delay D is for three motes or more that there are, and D is at least 1",
        ),
        "grid" => Some(
            "grid N..M width W delay D is for motes that there are, and W and D are at least 1",
        ),
        "room" | "rounds" => Some("room and rounds take a number up to 4294967295"),
        _ => None,
    }
}

/// What a line should be that says links and which of their frames are lost.
pub(crate) const FORM_WITH_LOSSES: &str =
    "links are between motes that there are, with a delay of at least 1; every N takes at least 1, lot C seed S at most 65536 for C";

/// Whether a line says which frames are lost.
pub(crate) fn says_losses(line: &str) -> bool {
    line.contains(" every ") || line.contains(" lot ")
}
