//! What the lines of a script say.

ghost use Rattle.std.specs.Prelude.{◌≡◌, ◌||◌, ◌==◌, length, slice_index};
ghost use Rattle.network_run.specs.Code.Lines.{said_by};
ghost use Rattle.network_steps.specs.NetworkScript.{is_for_some, read_network_line};

use mote_text::script::LINE_LIMIT;
use network_session::network::Network;
use network_steps::input::{NetworkInput, read_network_input};

/// Whether a line says nothing: it is empty, or a comment.
fn is_blank(line: &[u8]) -> bool
    ensures { result ≡ (length line.now == 0 || slice_index line.now 0 == 35) }
{
    line.is_empty() || line[0] == b'#'
}

/// Whether there is the mote that an input is for.
fn is_for_some(network: &Network, input: &NetworkInput) -> bool
    ensures { result ≡ is_for_some (length network.now.motes) input.now }
{
    match input {
        NetworkInput::Tick(_) => true,
        NetworkInput::ForMote(number, _) => {
            *number > 0 && network.mote(*number as usize - 1).is_some()
        }
    }
}

/// What a line says.
#[derive(Drop)]
pub(crate) enum Line {
    Malformed,
    Nothing,
    Input(NetworkInput),
}

/// What a line says in this network.
pub(crate) fn read_line(network: &Network, line: &[u8]) -> Line
    ensures { said_by result ≡ read_network_line (length network.now.motes) line.now }
{
    if line.len() > LINE_LIMIT {
        return Line::Malformed;
    }
    if is_blank(line) {
        return Line::Nothing;
    }
    match read_network_input(line) {
        Some(input) if is_for_some(network, &input) => Line::Input(input),
        _ => Line::Malformed,
    }
}
