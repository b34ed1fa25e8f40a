//! The line of what happened in a network.

ghost use Rattle.std.specs.Prelude.{◌≡◌, ◌++◌, slice_get};
ghost use Rattle.mote_text.specs.Code.Appending.{HasRoom};
ghost use Rattle.network_steps.specs.Code.Widths.{mote_line_limit};
ghost use Rattle.network_steps.specs.Lines.{came_line, line_by};

use crate::came::Came;
use crate::lines::{
    push_clock_line, push_frame_line, push_last_entry, push_last_line, push_unheard_line,
};
use mote_text::output_buffer::OutputBuffer;
use mote_text::script::End;
use network_session::network::Network;

/// Appends the line of a mote's last entry, if there is this mote.
// Out of the way of the network's own lines, which need no such memory.
#[inline(never)]
fn push_entry(mote: usize, network: &Network, text: &mut OutputBuffer)
    requires { HasRoom text.old mote_line_limit }
    ensures { text.new.items ≡ text.old.items ++ line_by mote (slice_get network.now.motes mote) }
{
    if let Some(session) = network.mote(mote) {
        push_last_entry(mote, session, text);
    }
}

/// Appends the line of what happened: of a mote's entry with the mote's number in front. Appends nothing for rest, or where the last turn
/// awaits its call.
pub fn push_came(came: Came, network: &Network, text: &mut OutputBuffer)
    requires { HasRoom text.old mote_line_limit }
    ensures { text.new.items ≡ text.old.items ++ came_line came network.now }
{
    match came {
        Came::Turn(mote) | Came::Entry(mote) => push_entry(mote, network, text),
        Came::Clock => push_clock_line(network.clock(), text),
        Came::Lost(from, to) => push_frame_line(b"lost", from, to, text),
        Came::Full(from, to) => push_frame_line(b"full", from, to, text),
        Came::Missed(from, to) => push_frame_line(b"missed", from, to, text),
        Came::Unheard(mote) => push_unheard_line(mote, text),
        Came::Exhausted => push_last_line(End::Halted, text),
        Came::Rest => {}
    }
}
