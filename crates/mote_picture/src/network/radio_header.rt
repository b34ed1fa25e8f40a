//! The header of a frame of IEEE 802.15.4-2015 (section 7.2).

use crate::network::cursor::Cursor;

/// A link-layer address: its bytes as a number, and how many they are. No bytes are no address.
#[derive(Clone, Copy, PartialEq, Eq, Drop)]
pub(crate) struct Address {
    size: usize,
    number: u64,
}

impl Address {
    fn of(bytes: &[u8]) -> Self {
        let mut number: u64 = 0;
        for byte in bytes {
            number = number % 0x100_0000_0000_0000 * 256 + *byte as u64;
        }
        Address {
            size: bytes.len(),
            number,
        }
    }

    pub(crate) fn is_none(&self) -> bool {
        self.size == 0
    }
}

/// A frame's header, and what follows it.
#[derive(Clone, Copy, Drop)]
pub(crate) struct Header<'a> {
    pub(crate) is_data: bool,
    /// An enhanced acknowledgement, which version 2015 has.
    pub(crate) is_ack: bool,
    pub(crate) sender: Address,
    pub(crate) receiver: Address,
    pub(crate) content: &'a [u8],
}

/// What the first two bytes say of the fields that follow.
#[derive(Clone, Copy, Drop)]
struct Control {
    /// 1 a data frame, 2 an acknowledgement.
    kind: u8,
    /// 2 is version 2015.
    version: u8,
    has_number: bool,
    /// One PAN, or none, is left out.
    is_compressed: bool,
    /// The addresses' modes: 0 none, 2 short, 3 long.
    receiver: u8,
    sender: u8,
}

/// `None` where the frame is secured, has information elements, or has a reserved version.
fn read_control(bytes: &mut Cursor<'_>) -> Option<Control> {
    let low = bytes.byte()?;
    let high = bytes.byte()?;
    let control = Control {
        kind: low & 7,
        version: high >> 4 & 3,
        has_number: high & 1 == 0 || high >> 4 & 3 != 2,
        is_compressed: low & 0x40 != 0,
        receiver: high >> 2 & 3,
        sender: high >> 6 & 3,
    };
    if low & 8 == 0 && high & 2 == 0 && control.version < 3 {
        Some(control)
    } else {
        None
    }
}

impl Control {
    /// Whether the receiver's PAN follows, and the sender's. Table 7-2 has them for version 2015.
    fn pans(&self) -> (bool, bool) {
        let (has_receiver, has_sender) = (self.receiver != 0, self.sender != 0);
        let is_whole = !self.is_compressed;
        if self.version != 2 {
            return (has_receiver, has_sender && is_whole);
        }
        if !has_receiver && !has_sender {
            return (self.is_compressed, false);
        }
        if self.receiver == 3 && self.sender == 3 {
            return (is_whole, false);
        }
        if has_receiver && has_sender {
            return (true, is_whole);
        }
        (has_receiver && is_whole, has_sender && is_whole)
    }
}

/// Skips a PAN where there is one, and reads the address after it.
fn read_address(bytes: &mut Cursor<'_>, has_pan: bool, mode: u8) -> Option<Address> {
    let _ = bytes.take(if has_pan { 2 } else { 0 })?;
    let size: usize = match mode {
        0 => 0,
        2 => 2,
        3 => 8,
        _ => return None,
    };
    Some(Address::of(bytes.take(size)?))
}

/// The header of a frame; `None` where it is malformed.
pub(crate) fn read_header(frame: &[u8]) -> Option<Header<'_>> {
    let mut bytes = Cursor::new(frame);
    let control = read_control(&mut bytes)?;
    let _ = bytes.take(if control.has_number { 1 } else { 0 })?;
    let (receiver_pan, sender_pan) = control.pans();
    let receiver = read_address(&mut bytes, receiver_pan, control.receiver)?;
    let sender = read_address(&mut bytes, sender_pan, control.sender)?;
    Some(Header {
        is_data: control.kind == 1,
        is_ack: control.kind == 2 && control.version == 2,
        sender,
        receiver,
        content: bytes.rest(),
    })
}
