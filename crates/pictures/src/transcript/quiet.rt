//! Quiet transcripts.

ghost use Rattle.std.specs.Prelude.{◌≡◌, ◌<◌, true, false, All, length, map, slice_index_or, [], eqb};
ghost use Rattle.std.specs.Bool.{OnFalse, OnTrue};
ghost use Rattle.std.specs.List.{starts_with};
ghost use Rattle.pictures.specs.Transcript.Quiet as spec;

use crate::transcript::line::{Ending, Line, Note, read_ending, read_line};

fn begins_with(text: &str, word: &str) -> bool
    ensures { result ≡ starts_with eqb text.now word.now }
{
    text.starts_with(word)
}

/// Whether a call prints or sends.
fn shows(call: &str) -> bool
    ensures { result ≡ spec.shows_call call.now }
{
    begins_with(call, "print ") || begins_with(call, "packet-send ")
}

/// Whether a quiet transcript may have the line: a turn that prints or sends, a frame that was sent, or how the run ended.
fn may_stay(line: &str) -> bool
    ensures stays { OnTrue result (spec.MayStay line.now) }
    ensures goes { OnFalse result (spec.MustStay line.now → ⊥) }
{
    match read_line(line) {
        Some(Line::Turn(turn)) => shows(turn.call),
        Some(Line::Note(Note::Sent(_))) | Some(Line::Ending(_)) => true,
        _ => false,
    }
}

fn may_all_stay(lines: &[&str]) -> bool
    ensures stay { OnTrue result (All (λ line. spec.MayStay line.now) lines.now) }
    ensures goes { OnFalse result (All (λ line. spec.MustStay line.now) lines.now → ⊥) }
{
    for line in lines {
        if !may_stay(line) {
            return false;
        }
    }
    true
}

/// Whether a line says how the script ended, which needs no turn before it.
fn ends_script(line: &str) -> bool
    ensures { result ≡ spec.ends_script line.now }
{
    match read_ending(line) {
        Some(Ending::BadLine(_)) | Some(Ending::TooLong) => true,
        Some(Ending::Halt) | None => false,
    }
}

/// Whether these are the lines of a quiet transcript, which has neither inputs nor any other call: in a whole one an activation ends
/// with `wait` or `exit`. The whole transcript of a mote that halts while it only prints, at boot, is taken for a quiet one.
pub fn is_quiet(lines: &[&str]) -> bool
    ensures some { OnTrue result (0 < length lines.now) }
    ensures first { OnTrue result (spec.ends_script (slice_index_or (map (λ line. line.now) lines.now) 0 []) ≡ false) }
    ensures shown { OnTrue result (All (λ line. spec.MayStay line.now) lines.now) }
    ensures other { OnFalse result (0 < length lines.now → spec.ends_script (slice_index_or (map (λ line. line.now) lines.now) 0 []) ≡ false
        → All (λ line. spec.MustStay line.now) lines.now → ⊥) }
{
    !lines.is_empty() && !ends_script(lines[0]) && may_all_stay(lines)
}
