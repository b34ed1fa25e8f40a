//! Packets of IPv6 in frames: 6LoWPAN (RFC 4944), with compressed headers (RFC 6282).

ghost use Rattle.std.specs.Prelude.{◌≡◌};
ghost use Rattle.mote_picture.specs.FrameTables as spec;

use crate::network::cursor::{Cursor, MOST_BYTES};
use crate::network::frames::{FrameName, Part};
use crate::network::packet::{is_route, name_in};
use crate::network::radio_header::{Address, Header};

/// What follows the header of a frame.
#[derive(Clone, Copy, PartialEq, Eq, Drop)]
pub(crate) enum Dispatch {
    /// A packet whose headers are whole.
    Whole,
    Compressed,
    FirstFragment,
    LaterFragment,
    NotLowpan,
}

/// What follows, by its first byte.
pub(crate) fn dispatch_of(byte: u8) -> Dispatch
    ensures { result ≡ spec.dispatch_of byte }
{
    if byte == 0b0100_0001 {
        Dispatch::Whole
    } else if byte / 32 == 0b011 {
        Dispatch::Compressed
    } else if byte / 8 == 0b11000 {
        Dispatch::FirstFragment
    } else if byte / 8 == 0b11100 {
        Dispatch::LaterFragment
    } else {
        Dispatch::NotLowpan
    }
}

/// The protocol of IPv6 in IPv6.
const IPV6: u8 = 41;

/// What follows a compressed header.
#[derive(Clone, Copy, Drop)]
enum Next {
    /// Another compressed header.
    Compressed,
    /// A compressed header of IPv6.
    Ipv6,
    /// The bytes of this protocol.
    Protocol(u8),
    /// The data of UDP, between these ports.
    Udp(u16, u16),
}

/// A packet, or its beginning, after its compressed headers.
#[derive(Clone, Copy, Drop)]
struct Expanded<'a> {
    next: Next,
    content: &'a [u8],
    /// The number of bytes with whole headers.
    size: usize,
    /// Whether each header is one that a name is known after.
    is_known: bool,
}

/// Compressed headers that are read.
#[derive(Clone, Copy, Drop)]
struct Headers<'a> {
    left: Cursor<'a>,
    sender: Address,
    receiver: Address,
    size: usize,
    is_known: bool,
}

/// The bytes of an address, by its mode (RFC 6282, section 3.1.1); `None` where it is that of the link, which has none.
fn address_size(has_context: bool, mode: u8, link: Address) -> Option<usize> {
    match mode {
        0 if has_context => Some(0),
        0 => Some(16),
        1 => Some(8),
        2 => Some(2),
        _ if link.is_none() => None,
        _ => Some(0),
    }
}

/// The bytes of a multicast address, by its mode.
fn group_size(mode: u8) -> usize {
    match mode {
        0 => 16,
        1 => 6,
        2 => 4,
        _ => 1,
    }
}

impl<'a> Headers<'a> {
    /// The bytes of the destination; `None` where its mode is a reserved one.
    fn destination_size(&self, modes: u8) -> Option<usize> {
        let (is_group, has_context) = (modes & 8 != 0, modes & 4 != 0);
        if is_group && has_context || modes & 15 == 4 {
            return None;
        }
        if is_group {
            return Some(group_size(modes & 3));
        }
        address_size(has_context, modes & 3, self.receiver)
    }

    /// Reads a compressed header of IPv6 (section 3.1).
    fn read_ipv6(&mut self) -> Option<Next> {
        let first = self.left.byte()?;
        let modes = self.left.byte()?;
        let context = if modes & 0x80 != 0 {
            self.left.byte()?
        } else {
            0
        };
        if first >> 5 != 3 || context != 0 {
            return None;
        }
        let _ = self.left.take(match first >> 3 & 3 {
            0 => 4,
            1 => 3,
            2 => 1,
            _ => 0,
        })?;
        let next = if first & 4 != 0 {
            Next::Compressed
        } else {
            Next::Protocol(self.left.byte()?)
        };
        let _ = self.left.take(if first & 3 == 0 { 1 } else { 0 })?;
        let source = address_size(modes & 0x40 != 0, modes >> 4 & 3, self.sender)?;
        let _ = self.left.take(source)?;
        let destination = self.destination_size(modes)?;
        let _ = self.left.take(destination)?;
        self.size = self.size.saturating_add(40);
        Some(next)
    }

    /// Reads a compressed header of UDP (section 4.3.3).
    fn read_udp(&mut self, encoding: u8) -> Option<Next> {
        let (source, destination) = match encoding & 3 {
            0 => (self.left.number()?, self.left.number()?),
            1 => (self.left.number()?, 0xf000 + self.left.byte()? as u16),
            2 => (0xf000 + self.left.byte()? as u16, self.left.number()?),
            _ => {
                let both = self.left.byte()?;
                (0xf0b0 + both as u16 / 16, 0xf0b0 + both as u16 % 16)
            }
        };
        let _ = self.left.take(if encoding & 4 == 0 { 2 } else { 0 })?;
        self.size = self.size.saturating_add(8);
        Some(Next::Udp(source, destination))
    }

    /// Reads a compressed extension header (section 4.2), whose padding may be left out.
    fn read_extension(&mut self, encoding: u8) -> Option<Next> {
        let kind = encoding >> 1 & 7;
        if kind > 4 {
            return None;
        }
        let next = if encoding & 1 != 0 {
            Next::Compressed
        } else {
            Next::Protocol(self.left.byte()?)
        };
        let size = self.left.byte()? as usize;
        let body = self.left.take(size)?;
        let whole = (size + 9) / 8 * 8;
        self.size = self.size.saturating_add(whole);
        let is_known = match kind {
            0 | 3 => true,
            1 => is_route(body, whole.saturating_sub(2)) == Some(true),
            _ => false,
        };
        self.is_known = self.is_known && is_known;
        Some(next)
    }

    /// Reads the compressed header that follows another one.
    fn read_next(&mut self) -> Option<Next> {
        let encoding = self.left.byte()?;
        if encoding >> 3 == 0x1e {
            return self.read_udp(encoding);
        }
        if encoding == 0xee {
            return Some(Next::Ipv6);
        }
        if encoding >> 4 != 0xe {
            return None;
        }
        self.read_extension(encoding)
    }

    fn end(&self, next: Next) -> Expanded<'a> {
        let content = self.left.rest();
        Expanded {
            next,
            content,
            size: self.size.saturating_add(content.len()),
            is_known: self.is_known,
        }
    }
}

/// Reads all compressed headers.
fn expand<'a>(bytes: &'a [u8], header: &Header<'_>) -> Option<Expanded<'a>> {
    let mut headers = Headers {
        left: Cursor::new(bytes),
        sender: header.sender,
        receiver: header.receiver,
        size: 0,
        is_known: true,
    };
    let mut next = Next::Ipv6;
    for _ in 0..=MOST_BYTES {
        next = match next {
            Next::Ipv6 => headers.read_ipv6()?,
            Next::Compressed => headers.read_next()?,
            Next::Protocol(_) | Next::Udp(_, _) => return Some(headers.end(next)),
        };
    }
    None
}

/// What is in a packet with compressed headers.
fn compressed_name(header: &Header<'_>) -> Option<FrameName> {
    let packet = expand(header.content, header)?;
    if !packet.is_known {
        return None;
    }
    match packet.next {
        Next::Protocol(protocol) => name_in(protocol, packet.content),
        Next::Udp(source, destination) => Some(FrameName::Udp(source, destination)),
        Next::Compressed | Next::Ipv6 => None,
    }
}

/// The number of bytes that a first fragment has of its packet.
fn first_part(bytes: &[u8], header: &Header<'_>) -> Option<usize> {
    let mut left = Cursor::new(bytes);
    if dispatch_of(left.byte()?) == Dispatch::Whole {
        return Some(left.rest().len());
    }
    Some(expand(bytes, header)?.size)
}

/// A fragment (RFC 4944, section 5.3): each but the last one has a multiple of eight bytes.
fn fragment_name(header: &Header<'_>, is_first: bool) -> Option<FrameName> {
    let mut left = Cursor::new(header.content);
    let size = left.number()? % 2_048;
    let tag = left.number()?;
    let at = if is_first { 0 } else { left.byte()? };
    let bytes = if is_first {
        first_part(left.rest(), header)?
    } else {
        left.rest().len()
    };
    let end = (8 * at as usize).saturating_add(bytes);
    let is_sound = bytes > 0 && end <= size as usize && (end % 8 == 0 || end == size as usize);
    if !is_sound {
        return None;
    }
    Some(FrameName::Fragment(Part {
        sender: header.sender,
        receiver: header.receiver,
        size,
        tag,
        at,
    }))
}

/// What a data frame is; `None` where it has no 6LoWPAN, or is malformed.
pub(crate) fn data_name(header: &Header<'_>) -> Option<FrameName> {
    let mut left = Cursor::new(header.content);
    match dispatch_of(left.byte()?) {
        Dispatch::Whole => name_in(IPV6, left.rest()),
        Dispatch::Compressed => compressed_name(header),
        Dispatch::FirstFragment => fragment_name(header, true),
        Dispatch::LaterFragment => fragment_name(header, false),
        Dispatch::NotLowpan => None,
    }
}
