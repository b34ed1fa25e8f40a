//! The lines of a script, and how a run ends.

ghost use Rattle.std.specs.Prelude.{◌≡◌, ◌≤◌, ◌&&◌, ◌^◌, codes, false, length, nat_lt, slice_get, take, if◌then◌else◌, Some, None, IfOk, IfSome};
ghost use Rattle.mote_types.specs.declared.entry.Input.{Input as Said};
ghost use Rattle.std.specs.Char.{is_ascii_digit};
ghost use Rattle.std.specs.List.{list_all};
ghost use Rattle.std.specs.Str.Parse.{digits_value};
ghost use Rattle.mote_text.specs.Script.{read_behind, read_bytes, read_line, read_number};
ghost use Rattle.mote_text.specs.Code.LineAnswers.{line_said, some_if};

use crate::hex_digits::DigitValues;
use arrayvec::ArrayVec;
use mote_types::entry::Input;
use thiserror::Error;

/// The most bytes of a script that are read, and the most bytes of a line without its end.
pub const SCRIPT_LIMIT: u32 = 16_777_216;

pub const LINE_LIMIT: usize = 1_024;

/// How a run ends.
#[derive(Clone, Copy, Debug, PartialEq, Eq, Drop)]
pub enum End {
    /// All lines of the script were executed.
    Finished,
    /// The line of this number is malformed. Lines are numbered from 1.
    BadLine(u32),
    /// The work bound was reached.
    Halted,
    /// The script has more than `SCRIPT_LIMIT` bytes.
    TooLong,
}

/// A line of a script is malformed.
#[derive(Clone, Copy, Debug, PartialEq, Eq, Drop, Error)]
#[error("a malformed line")]
pub struct BadLine;

/// The number from 0 to 4294967295 that digits write: 0 if there are none.
fn read_digits(digits: &[u8]) -> Option<u32>
    ensures { result ≡ (if list_all is_ascii_digit digits.now && nat_lt (digits_value 10 digits.now) (2 ^ 32)
        then Some (digits_value 10 digits.now) else None) }
{
    let mut number: u32 = 0;
    for byte in digits {
        if !byte.is_ascii_digit() {
            return None;
        }
        number = number
            .checked_mul(10)?
            .checked_add(u32::from(*byte - b'0'))?;
    }
    Some(number)
}

/// The number from 0 to 4294967295 that a text is in decimal, with no leading zero but that of `0` itself; none, where it
/// isn't one. Scripts have such numbers (this project's profile), and so may commands to an application.
pub fn read_number(text: &[u8]) -> Option<u32>
    ensures { result ≡ read_number text.now }
{
    let has_leading_zero = text.len() > 1 && text[0] == b'0';
    if text.is_empty() || has_leading_zero {
        return None;
    }
    read_digits(text)
}

/// Reads a line `tick N` into the buffer. Returns whether it is one.
fn read_tick(line: &[u8], input: &mut Input) -> bool
    ensures { some_if result input.new ≡ read_behind (codes "tick ") read_number (λ n. Said.Tick n) line.now }
{
    let Some(text) = line.strip_prefix(b"tick ") else {
        return false;
    };
    let Some(number) = read_number(text) else {
        return false;
    };
    put_tick(input, number);
    true
}

/// Writes a tick into the buffer.
#[inline]
pub(crate) fn put_tick(input: &mut Input, number: u32)
    ensures { input.new ≡ Said.Tick number }
{
    match input {
        // Another kind of input is overwritten whole, with zeros after the number.
        Input::Tick(ticks) => *ticks = number,
        _ => *input = Input::Tick(number),
    }
}

/// The number of digits at the start of the piece, and the number that they write, if a line end follows them. Nothing if there
/// are no digits, or more than eight.
// Most lines are short ticks: their end is found in the walk that reads them.
#[inline]
pub(crate) fn short_number(piece: &[u8]) -> Option<(usize, u32)>
    ensures ended { IfSome result (λ found. slice_get piece.now found.0 ≡ Some 10) }
    ensures number { IfSome result (λ found. read_number (take found.0 piece.now) ≡ Some found.1) }
    ensures short { IfSome result (λ found. found.0 ≤ 8) }
{
    let mut number: u32 = 0;
    for i in 0..piece.len().min(9) {
        let byte = piece[i];
        if byte == b'\n' {
            let has_leading_zero = i > 1 && piece[0] == b'0';
            if i == 0 || has_leading_zero {
                return None;
            }
            return Some((i, number));
        }
        if !byte.is_ascii_digit() {
            return None;
        }
        number = number * 10 + u32::from(byte - b'0');
    }
    None
}

/// What a buffer holds until the bytes that digits write are put there.
static BLANKS: [u8; 512] = [0; 512];

/// Sets the length of the bytes to `len`; their values are unspecified.
fn resize<const N: usize>(bytes: &mut ArrayVec<u8, N>, len: usize)
    requires some { len ≤ N }
    requires few { N ≤ 512 }
    ensures { length bytes.new.items ≡ len }
{
    bytes.truncate(len);
    let kept = bytes.len();
    // Most often the line before was as long, and an extension by nothing would still call `memcpy`.
    if kept < len {
        let _ = bytes.try_extend_from_slice(&BLANKS[kept..len]);
    }
}

/// Reads from one to `N` bytes in hex digits of either case into the buffer. Returns whether the text is that.
fn read_bytes<const N: usize>(
    digits: &[u8],
    bytes: &mut ArrayVec<u8, N>,
    values: &DigitValues,
) -> bool
    requires { N ≤ 512 }
    ensures { some_if result bytes.new.items ≡ read_bytes N digits.now }
{
    let len = digits.len() / 2;
    if digits.is_empty() || len > N {
        return false;
    }
    resize(bytes, len);
    values.read(digits, bytes.as_mut_slice())
}

/// Reads a line `serial HEX` into the buffer. Returns whether it is one.
// Out of the way of ticks, which most lines are.
#[inline(never)]
fn read_serial(line: &[u8], input: &mut Input, values: &DigitValues) -> bool
    ensures { some_if result input.new ≡
        read_behind (codes "serial ") (read_bytes 256) (λ bytes. Said.Serial (record { items = bytes })) line.now }
{
    let Some(digits) = line.strip_prefix(b"serial ") else {
        return false;
    };
    if !matches!(input, Input::Serial(_)) {
        *input = Input::Serial(ArrayVec::new());
    }
    match input {
        Input::Serial(bytes) => read_bytes(digits, bytes, values),
        _ => false,
    }
}

/// Reads a line `frame HEX` into the buffer. Returns whether it is one.
// As `read_serial`.
#[inline(never)]
fn read_frame(line: &[u8], input: &mut Input, values: &DigitValues) -> bool
    ensures { some_if result input.new ≡
        read_behind (codes "frame ") (read_bytes 127) (λ bytes. Said.Frame (record { items = bytes })) line.now }
{
    let Some(digits) = line.strip_prefix(b"frame ") else {
        return false;
    };
    if !matches!(input, Input::Frame(_)) {
        *input = Input::Frame(ArrayVec::new());
    }
    match input {
        Input::Frame(bytes) => read_bytes(digits, bytes, values),
        _ => false,
    }
}

/// Reads a line of a script, without its end, into the buffer. Returns whether it is an input. If it says nothing (an empty
/// line, a comment), the buffer is left as it was.
///
/// Source: the script format is this project's profile.
///
/// # Errors
///
/// `BadLine` if the line is malformed, or has more than 1,024 bytes. The buffer may hold any input then.
pub fn read_input_to(line: &[u8], input: &mut Input) -> Result<bool, BadLine>
    ensures says { line_said result input.new ≡ read_line line.now }
    ensures nothing { IfOk result (λ is_input. is_input ≡ false → input.new ≡ input.old) }
{
    read_input_by(line, input, &DigitValues::new())
}

/// As `read_input_to`, for callers that read many lines: they ask for the digits' values once.
///
/// # Errors
///
/// As `read_input_to`.
#[tactic(auto, unfolding(crate::specs::Script::read_line), using(crate::proofs::FirstBytes::by_first_byte))]
pub fn read_input_by(line: &[u8], input: &mut Input, values: &DigitValues) -> Result<bool, BadLine>
    ensures says { line_said result input.new ≡ read_line line.now }
    ensures nothing { IfOk result (λ is_input. is_input ≡ false → input.new ≡ input.old) }
{
    if line.len() > LINE_LIMIT {
        return Err(BadLine);
    }
    if line.is_empty() || line[0] == b'#' {
        return Ok(false);
    }
    let is_input = match line[0] {
        b't' => read_tick(line, input),
        b's' => read_serial(line, input, values),
        b'f' => read_frame(line, input, values),
        _ => false,
    };
    if is_input { Ok(true) } else { Err(BadLine) }
}
