//! The inputs of a network, as lines of its script say them.

ghost use Rattle.std.specs.Prelude.{◌≡◌, None, Some, IfNone, IfSome};
ghost use Rattle.mote_text.specs.Script.{read_line};
ghost use Rattle.network_steps.specs.NetworkScript.{for_mote, parted, read_network_input, tick_of};

use memchr::memchr;
use mote_text::by_value::read_input;
use mote_text::script::read_number;
use mote_types::entry::Input;

/// An input of a network.
#[derive(Drop)]
pub enum NetworkInput {
    /// The clock goes on by this many ticks.
    Tick(u32),
    /// Serial bytes or a frame come in at the mote of this number. The first mote is 1.
    ForMote(u32, Input),
}

/// The bytes before the first space, and those after it.
fn parted(line: &[u8]) -> Option<(&[u8], &[u8])>
    ensures some { IfSome result (λ parts. parted line.now ≡ Some (parts.0.now, parts.1.now)) }
    ensures none { IfNone result (parted line.now ≡ None) }
{
    let at = memchr(b' ', line)?;
    Some((&line[..at], &line[at + 1..]))
}

/// The input of a line `tick N`.
fn tick_of(line: &[u8]) -> Option<NetworkInput>
    ensures { result ≡ tick_of (read_line line.now) }
{
    match read_input(line) {
        Ok(Some(Input::Tick(ticks))) => Some(NetworkInput::Tick(ticks)),
        Ok(Some(Input::Serial(_))) | Ok(Some(Input::Frame(_))) | Ok(None) | Err(_) => None,
    }
}

/// The input of a line `serial HEX` or `frame HEX` for the mote of this number.
fn for_mote(line: &[u8], number: u32) -> Option<NetworkInput>
    ensures { result ≡ for_mote (read_line line.now) number }
{
    match read_input(line) {
        Ok(Some(Input::Serial(bytes))) => {
            Some(NetworkInput::ForMote(number, Input::Serial(bytes)))
        }
        Ok(Some(Input::Frame(bytes))) => Some(NetworkInput::ForMote(number, Input::Frame(bytes))),
        Ok(Some(Input::Tick(_))) | Ok(None) | Err(_) => None,
    }
}

/// Reads a line of a network's script, without its end: `tick N`, `N serial HEX` or `N frame HEX`, where N is the number of a mote,
/// HEX as in a mote's script. Returns `None` for any other line.
///
/// Source: the script format is this project's profile.
pub fn read_network_input(line: &[u8]) -> Option<NetworkInput>
    ensures { result ≡ read_network_input line.now }
{
    if let Some(input) = tick_of(line) {
        return Some(input);
    }
    let (number, rest) = parted(line)?;
    for_mote(rest, read_number(number)?)
}
