//! What frames are called, where they are those of IPv6 in IEEE 802.15.4.

use crate::network::lowpan::data_name;
use crate::network::packet::Message;
use crate::network::radio_header::{Address, read_header};
use pictures::network::NetworkLine;
use pictures::transcript::{Line, Note};
use pictures::words::bytes_in;
use std::alloc::{AllocError, Global};

/// A fragment of a packet.
#[derive(Clone, Copy, Drop)]
pub(crate) struct Part {
    pub(crate) sender: Address,
    pub(crate) receiver: Address,
    /// The bytes of the whole packet.
    pub(crate) size: u16,
    pub(crate) tag: u16,
    /// The position of its first byte in the packet, in units of eight.
    pub(crate) at: u8,
}

impl Part {
    /// Whether two fragments are of one packet.
    fn is_with(&self, other: &Part) -> bool {
        self.sender == other.sender
            && self.receiver == other.receiver
            && self.size == other.size
            && self.tag == other.tag
    }
}

/// What a frame is.
#[derive(Clone, Copy, Drop)]
pub(crate) enum FrameName {
    Ack,
    Fragment(Part),
    /// The source port and the destination port.
    Udp(u16, u16),
    Icmp(Message),
}

/// What a frame of these bytes is; `None` where it isn't one of IPv6, or is malformed.
fn name_of(frame: &[u8]) -> Option<FrameName> {
    let header = read_header(frame)?;
    if header.is_data {
        return data_name(&header);
    }
    if header.is_ack && header.content.is_empty() {
        return Some(FrameName::Ack);
    }
    None
}

/// The digits of the frame that a line says was sent.
fn sent_in<'a>(line: &NetworkLine<'a>) -> Option<&'a str> {
    match *line {
        NetworkLine::Mote(_, Line::Note(Note::Sent(digits))) => Some(digits),
        _ => None,
    }
}

/// The words for an error's type (RFC 4443, section 2.1).
fn error_words(kind: u8) -> &'static str {
    match kind {
        1 => "destination unreachable",
        2 => "packet too big",
        3 => "time exceeded",
        _ => "parameter problem",
    }
}

fn push_message(out: &mut String, message: Message) -> Result<(), AllocError> {
    match message {
        Message::Error(kind, code) => {
            write!(out, "ICMPv6 error: {}, code {code}", error_words(kind))
        }
        Message::EchoRequest => out.push_str("echo request"),
        Message::EchoReply => out.push_str("echo reply"),
        Message::Dis => out.push_str("DIS"),
        Message::Dio => out.push_str("DIO"),
        Message::Dao => out.push_str("DAO"),
        Message::DaoAck => out.push_str("DAO-ACK"),
    }
}

/// The frames of a run.
#[derive(Drop)]
pub(crate) struct Frames {
    /// All fragments that were sent.
    parts: Vec<Part>,
}

impl Frames {
    pub(crate) fn of(alloc: Global, lines: &[NetworkLine<'_>]) -> Result<Self, AllocError> {
        let mut parts = Vec::new(alloc);
        for line in lines {
            let frame = bytes_in(alloc, sent_in(line).unwrap_or("-"))?;
            if let Some(FrameName::Fragment(part)) = name_of(frame.as_slice()) {
                parts.push(part)?;
            }
        }
        Ok(Frames { parts })
    }

    /// Which one a fragment is of those of its packet, from 1 on, and of how many; `None` where it wasn't sent in this run.
    fn number_of(&self, part: &Part) -> Option<(usize, usize)> {
        let mut has = [false; 256];
        for other in self.parts.as_slice() {
            if other.is_with(part) {
                has[other.at as usize] = true;
            }
        }
        let (mut number, mut all) = (0usize, 0usize);
        for at in 0..256usize {
            if has[at] {
                all = all.saturating_add(1);
                number = if at <= part.at as usize { all } else { number };
            }
        }
        if has[part.at as usize] {
            Some((number, all))
        } else {
            None
        }
    }

    fn push_part(&self, out: &mut String, part: &Part) -> Result<(), AllocError> {
        match self.number_of(part) {
            Some((number, all)) => write!(out, "fragment {number} of {all}"),
            None => write!(
                out,
                "fragment from {} on, of {} bytes",
                8 * part.at as usize,
                part.size
            ),
        }
    }

    fn push_name(&self, out: &mut String, name: FrameName) -> Result<(), AllocError> {
        match name {
            FrameName::Ack => out.push_str("ack"),
            FrameName::Fragment(part) => self.push_part(out, &part),
            FrameName::Udp(source, destination) => write!(out, "UDP {source} -> {destination}"),
            FrameName::Icmp(message) => push_message(out, message),
        }
    }

    /// The name of the frame of these digits; empty where it has none.
    pub(crate) fn name(&self, alloc: Global, digits: &str) -> Result<String, AllocError> {
        let mut text = String::new(alloc);
        let frame = bytes_in(alloc, digits)?;
        if let Some(name) = name_of(frame.as_slice()) {
            self.push_name(&mut text, name)?;
        }
        Ok(text)
    }

    /// The name of the frame that this line says was sent; empty where it has none.
    pub(crate) fn name_sent(
        &self,
        alloc: Global,
        lines: &[NetworkLine<'_>],
        line: usize,
    ) -> Result<String, AllocError> {
        let digits = match lines.get(line) {
            Some(line) => sent_in(line).unwrap_or("-"),
            None => "-",
        };
        self.name(alloc, digits)
    }
}
