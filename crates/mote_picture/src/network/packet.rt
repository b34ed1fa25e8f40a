//! Packets of IPv6 whose headers are whole (RFC 8200), and the messages in them.

ghost use Rattle.std.specs.Prelude.{◌≡◌};
ghost use Rattle.mote_picture.specs.FrameTables as spec;

use crate::network::cursor::{Cursor, MOST_BYTES};
use crate::network::frames::FrameName;

/// A message of ICMPv6 (RFC 4443) or, in it, of RPL (RFC 6550).
#[derive(Clone, Copy, Drop)]
pub(crate) enum Message {
    /// Its type and code.
    Error(u8, u8),
    EchoRequest,
    EchoReply,
    Dis,
    Dio,
    Dao,
    DaoAck,
}

fn rpl_message_of(code: u8) -> Option<Message>
    ensures { result ≡ spec.rpl_message_of code }
{
    match code {
        0 => Some(Message::Dis),
        1 => Some(Message::Dio),
        2 => Some(Message::Dao),
        3 => Some(Message::DaoAck),
        _ => None,
    }
}

/// What a message of ICMPv6 is, by its type and code.
fn message_of(kind: u8, code: u8) -> Option<Message>
    ensures { result ≡ spec.message_of kind code }
{
    match kind {
        1..=4 => Some(Message::Error(kind, code)),
        128 => Some(Message::EchoRequest),
        129 => Some(Message::EchoReply),
        155 => rpl_message_of(code),
        _ => None,
    }
}

/// Reads an option (RFC 6550, section 6.7). Returns whether it is well-formed; of a DAO, also whether targets and transits have lengths
/// that these may have.
fn read_option(bytes: &mut Cursor<'_>, is_dao: bool) -> Option<bool> {
    let kind = bytes.byte()?;
    if kind == 0 {
        return Some(true);
    }
    let size = bytes.byte()?;
    let _ = bytes.take(size as usize)?;
    Some(match kind {
        5 if is_dao => size >= 2,
        6 if is_dao => size == 4 || size == 20,
        _ => true,
    })
}

/// Whether all bytes that are left are options.
fn are_options(bytes: &Cursor<'_>, is_dao: bool) -> bool {
    let mut left = *bytes;
    for _ in 0..=MOST_BYTES {
        if left.rest().is_empty() {
            return true;
        }
        if read_option(&mut left, is_dao) != Some(true) {
            return false;
        }
    }
    false
}

/// Reads the head of a message of RPL, with the 16 bytes of a DODAG's identifier where its second byte has this bit.
fn read_rpl_head(bytes: &mut Cursor<'_>, bit: u8) -> Option<()> {
    let head = bytes.take(4)?;
    let has_dodag = head.get(1).copied().unwrap_or(0) & bit != 0;
    let _ = bytes.take(if has_dodag { 16 } else { 0 })?;
    Some(())
}

/// Whether a message's bytes after its checksum are as they must be.
fn is_whole(message: Message, bytes: &Cursor<'_>) -> Option<bool> {
    let mut left = *bytes;
    match message {
        Message::Error(_, _) | Message::EchoRequest | Message::EchoReply => {
            let _ = left.take(4)?;
            Some(true)
        }
        Message::Dis => {
            let _ = left.take(2)?;
            Some(are_options(&left, false))
        }
        Message::Dio => {
            let _ = left.take(24)?;
            Some(are_options(&left, false))
        }
        Message::Dao => {
            read_rpl_head(&mut left, 0x40)?;
            Some(are_options(&left, true))
        }
        Message::DaoAck => {
            read_rpl_head(&mut left, 0x80)?;
            Some(true)
        }
    }
}

/// A message of ICMPv6.
fn read_icmp(bytes: &Cursor<'_>) -> Option<FrameName> {
    let mut left = *bytes;
    let kind = left.byte()?;
    let code = left.byte()?;
    let _ = left.take(2)?;
    let message = message_of(kind, code)?;
    if is_whole(message, &left) != Some(true) {
        return None;
    }
    Some(FrameName::Icmp(message))
}

/// A datagram of UDP (RFC 768).
fn read_udp(bytes: &Cursor<'_>) -> Option<FrameName> {
    let mut left = *bytes;
    let source = left.number()?;
    let destination = left.number()?;
    let size = left.number()?;
    let _ = left.take(2)?;
    if size as usize == bytes.rest().len() {
        Some(FrameName::Udp(source, destination))
    } else {
        None
    }
}

/// Whether a routing header is well-formed (RFC 6554, section 3), by its bytes after the first two and by their number with padding.
pub(crate) fn is_route(body: &[u8], size: usize) -> Option<bool> {
    let mut left = Cursor::new(body);
    let kind = left.byte()?;
    let hops = left.byte()?;
    if hops == 0 {
        return Some(true);
    }
    let (sizes, padding) = (left.byte()?, left.byte()?);
    let inner = 16usize.saturating_sub((sizes / 16) as usize);
    let last = 16usize.saturating_sub((sizes % 16) as usize);
    let addresses = size.checked_sub(6)?.checked_sub((padding / 16) as usize)?;
    let others = addresses.checked_sub(last)?;
    let most = others.checked_div(inner)?.saturating_add(1);
    Some(kind == 3 && others.checked_rem(inner)? == 0 && hops as usize <= most)
}

/// Reads a header of options or routes. Returns the protocol of what follows.
fn read_extension(bytes: &mut Cursor<'_>, is_routing: bool) -> Option<u8> {
    let protocol = bytes.byte()?;
    let eights = bytes.byte()?;
    let body = bytes.take(8 * eights as usize + 6)?;
    if is_routing && is_route(body, body.len()) != Some(true) {
        return None;
    }
    Some(protocol)
}

/// Reads a header of IPv6. Returns the protocol of what follows.
fn read_ipv6(bytes: &mut Cursor<'_>) -> Option<u8> {
    let first = bytes.byte()?;
    let _ = bytes.take(3)?;
    let size = bytes.number()?;
    let protocol = bytes.byte()?;
    let _ = bytes.take(33)?;
    if first / 16 == 6 && size as usize == bytes.rest().len() {
        Some(protocol)
    } else {
        None
    }
}

/// What is in a packet, by the protocol of its first header and all bytes; `None` where that is malformed, or another protocol.
pub(crate) fn name_in(first: u8, packet: &[u8]) -> Option<FrameName> {
    let mut bytes = Cursor::new(packet);
    let mut protocol = first;
    for _ in 0..MOST_BYTES {
        match protocol {
            0 | 60 => protocol = read_extension(&mut bytes, false)?,
            43 => protocol = read_extension(&mut bytes, true)?,
            41 => protocol = read_ipv6(&mut bytes)?,
            17 => return read_udp(&bytes),
            58 => return read_icmp(&bytes),
            _ => return None,
        }
    }
    None
}
