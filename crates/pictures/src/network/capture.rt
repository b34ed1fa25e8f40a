//! The frames that were sent, as a capture: a file in the format of libpcap.

ghost use Rattle.std.specs.Prelude.{◌≡◌, ◌≤◌, ◌<◌, ◌*◌, ◌/◌, ◌++◌, false, true, length, take, IfOk, IsErrOf};
ghost use Rattle.std.specs.Int.{to_le_bytes};
ghost use Rattle.std.specs.List.{list_any};
ghost use mir.Syntax.{w32};
ghost use Rattle.pictures.specs.Network.Capture as spec;
ghost use Rattle.pictures.specs.declared.network.capture.CaptureFault.{CaptureFault};

use crate::network::line::NetworkLine;
use crate::transcript::{Line, Note};
use crate::words::bytes_in;
use std::alloc::{AllocError, Global};

/// The most bytes that a frame has.
const LONGEST: usize = 127;

/// The magic number of times in microseconds, version 2.4, two reserved words, the most bytes of a frame, and the link type: the low byte
/// of each number first.
const HEADER: [u8; 24] = [
    0xd4, 0xc3, 0xb2, 0xa1, 2, 0, 4, 0, 0, 0, 0, 0, 0, 0, 0, 0, 127, 0, 0, 0, 230, 0, 0, 0,
];

/// Why there is no capture.
#[derive(Clone, Copy, PartialEq, Eq, Drop)]
pub enum CaptureFault {
    /// A frame was sent 2^32 seconds or more after the start, which the format can't state.
    Late,
    Memory,
}

impl From<AllocError> for CaptureFault {
    ghost use Rattle.pictures.specs.declared.network.capture.CaptureFault.TheVariants.{Memory};

    ghost from_gives = { λ _ fault. fault ≡ Memory };

    fn from(_error: AllocError) -> Self {
        CaptureFault::Memory
    }
}

/// A frame that was sent.
#[derive(Clone, Copy, Drop)]
struct Sent<'a> {
    clock: u64,
    /// Two for each byte, or `-` for none.
    digits: &'a str,
}

fn push_word(out: &mut Vec<u8>, number: u32) -> Result<(), AllocError>
    ensures { IfOk result (λ _. out.new.items ≡ out.old.items ++ to_le_bytes w32 number) }
{
    let bytes = number.to_le_bytes();
    out.extend_from_slice(&bytes)
}

/// Appends the global header.
#[tactic(auto, unfolding(crate::specs::Network::Capture::global_header))]
fn push_header(out: &mut Vec<u8>) -> Result<(), AllocError>
    ensures { IfOk result (λ _. out.new.items ≡ out.old.items ++ spec.global_header) }
{
    out.extend_from_slice(&HEADER)
}

/// The microseconds of ticks that make less than a second, rounded down.
fn microseconds(ticks: u64, clock_second: u32) -> u32
    requires { ticks < clock_second }
    ensures { result ≡ ticks * 1000000 / clock_second }
{
    (ticks * 1_000_000 / clock_second as u64) as u32
}

/// Appends when a frame was sent: the second, and the microseconds in it.
#[tactic(auto, unfolding(crate::specs::Network::Capture::moment_of))]
fn push_moment(out: &mut Vec<u8>, clock: u64, clock_second: u32) -> Result<(), AllocError>
    requires second { 1 ≤ clock_second }
    requires in_time { spec.is_late clock_second clock ≡ false }
    ensures { IfOk result (λ _. out.new.items ≡ out.old.items ++ spec.moment_of clock_second clock) }
{
    let second = clock_second as u64;
    push_word(out, (clock / second) as u32)?;
    push_word(out, microseconds(clock % second, clock_second))
}

/// Appends the number of a frame's bytes, as captured and as sent.
#[tactic(auto, unfolding(crate::specs::Network::Capture::lengths_of))]
fn push_lengths(out: &mut Vec<u8>, bytes: usize) -> Result<(), AllocError>
    requires { bytes ≤ 127 }
    ensures { IfOk result (λ _. out.new.items ≡ out.old.items ++ spec.lengths_of bytes) }
{
    push_word(out, bytes as u32)?;
    push_word(out, bytes as u32)
}

/// Appends a frame with its header.
fn push_record(
    out: &mut Vec<u8>,
    clock: u64,
    bytes: &[u8],
    clock_second: u32,
) -> Result<(), AllocError>
    requires second { 1 ≤ clock_second }
    requires in_time { spec.is_late clock_second clock ≡ false }
    requires short { length bytes.now ≤ 127 }
    ensures { IfOk result (λ _. out.new.items ≡ out.old.items ++ spec.record_of clock_second clock bytes.now) }
{
    push_moment(out, clock, clock_second)?;
    push_lengths(out, bytes.len())?;
    out.extend_from_slice(bytes)
}

/// All bytes of a frame, which has at most 127.
fn captured(bytes: &[u8]) -> &[u8]
    ensures bytes { result.now ≡ take 127 bytes.now }
    ensures short { length result.now ≤ 127 }
{
    if bytes.len() > LONGEST {
        &bytes[..LONGEST]
    } else {
        bytes
    }
}

/// Whether a frame was sent at a moment that the format can't state.
fn is_late(clock: u64, clock_second: u32) -> bool
    requires { 1 ≤ clock_second }
    ensures { result ≡ spec.is_late clock_second clock }
{
    clock / clock_second as u64 >= 4_294_967_296
}

/// The frame that was sent, as a line says it.
fn sent_in<'a>(clock: u64, line: &NetworkLine<'a>) -> Option<Sent<'a>>
    ensures { result ≡ spec.sent_in clock line.now }
{
    match *line {
        NetworkLine::Mote(_, Line::Note(Note::Sent(digits))) => Some(Sent { clock, digits }),
        _ => None,
    }
}

/// The clock after a line.
fn clock_after(clock: u64, line: &NetworkLine<'_>) -> u64
    ensures { result ≡ spec.clock_after clock line.now }
{
    match *line {
        NetworkLine::Clock(moment) => moment,
        _ => clock,
    }
}

/// The frames that were sent, in order.
fn sends_of<'a>(alloc: Global, lines: &[NetworkLine<'a>]) -> Result<Vec<Sent<'a>>, AllocError>
    ensures { IfOk result (λ sends. sends.items ≡ spec.sends 0 lines.now) }
{
    let mut sends = Vec::new(alloc);
    let mut clock: u64 = 0;
    for line in lines {
        if let Some(sent) = sent_in(clock, line) {
            sends.push(sent)?;
        }
        clock = clock_after(clock, line);
    }
    Ok(sends)
}

/// Appends a frame, where the format can state its moment.
fn push_sent(
    alloc: Global,
    out: &mut Vec<u8>,
    sent: &Sent<'_>,
    clock_second: u32,
) -> Result<(), CaptureFault>
    requires { 1 ≤ clock_second }
    ensures record { IfOk result (λ _. out.new.items ≡ out.old.items ++ spec.sent_record clock_second sent.now) }
    ensures in_time { IfOk result (λ _. spec.is_late clock_second sent.now.clock ≡ false) }
    ensures late { IsErrOf result CaptureFault.Late → spec.is_late clock_second sent.now.clock ≡ true }
{
    if is_late(sent.clock, clock_second) {
        return Err(CaptureFault::Late);
    }
    let bytes = bytes_in(alloc, sent.digits)?;
    push_record(out, sent.clock, captured(bytes.as_slice()), clock_second)?;
    Ok(())
}

/// The records of these frames after the global header.
fn records_of(alloc: Global, sends: &[Sent<'_>], clock_second: u32) -> Result<Vec<u8>, CaptureFault>
    requires { 1 ≤ clock_second }
    ensures pcap { IfOk result (λ pcap. pcap.items ≡ spec.pcap_with clock_second sends.now) }
    ensures in_time { IfOk result (λ _. list_any (spec.is_sent_late clock_second) sends.now ≡ false) }
    ensures late { IsErrOf result CaptureFault.Late → list_any (spec.is_sent_late clock_second) sends.now ≡ true }
{
    let mut out = Vec::new(alloc);
    push_header(&mut out)?;
    for sent in sends {
        push_sent(alloc, &mut out, sent, clock_second)?;
    }
    Ok(out)
}

/// The capture of a run, by the lines of its transcript: a file in the format of libpcap, with a record for each frame that was sent, in
/// order, at the time of its tick: `clock_second` ticks are a second, and a microsecond that isn't whole is cut off. The frames are those
/// of IEEE 802.15.4 without their check sequence.
///
/// # Errors
///
/// `Late` where a frame was sent too late for the format, or `Memory` where memory was refused.
///
/// Source: draft-ietf-opsawg-pcap, sections 4 and 5; link type 230 is LINKTYPE_IEEE802_15_4_NOFCS.
pub fn capture_of(
    alloc: Global,
    lines: &[NetworkLine<'_>],
    clock_second: u32,
) -> Result<Vec<u8>, CaptureFault>
    requires { 1 ≤ clock_second }
    ensures pcap { IfOk result (λ pcap. pcap.items ≡ spec.pcap_of clock_second lines.now) }
    ensures in_time { IfOk result (λ _. list_any (spec.is_sent_late clock_second) (spec.sends 0 lines.now) ≡ false) }
    ensures late { IsErrOf result CaptureFault.Late → list_any (spec.is_sent_late clock_second) (spec.sends 0 lines.now) ≡ true }
{
    let sends = sends_of(alloc, lines)?;
    records_of(alloc, sends.as_slice(), clock_second)
}
