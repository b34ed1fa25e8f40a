//! The lines of a script that say a tick.

ghost use Rattle.std.specs.Prelude.{◌≡◌, None, Some, IfSome};
ghost use Rattle.mote_text.specs.Script.{read_line};
ghost use Rattle.mote_types.specs.declared.entry.Input.{Input as Said};

use mote_text::script::read_number;

/// No line `tick N` is longer, without its end.
const TICK_LINE: usize = 15;

/// The N of a line `tick N`, without its end. None for any other line.
// Most lines are ticks: an input by itself has room for the bytes of a serial line, which is cleared first.
pub(crate) fn ticks_said(line: &[u8]) -> Option<u32>
    ensures { IfSome result (λ ticks. read_line line.now ≡ Some (Some (Said.Tick ticks))) }
{
    if line.len() > TICK_LINE {
        return None;
    }
    read_number(line.strip_prefix(b"tick ")?)
}
