//! Bytes as they are shown.

ghost use Rattle.std.specs.Prelude.{◌≡◌, ◌++◌, ◌<◌, false, [], ◌∷◌, take, string_bytes, IfOk};
ghost use Rattle.std.specs.Fmt.{digit_glyph};
ghost use Rattle.std.specs.List.{list_all};
ghost use Rattle.pictures.specs.Words as spec;

use hex::FromHexError;
use std::alloc::{AllocError, Global};

/// The number of bytes of a text that are shown: these leave room beside what memory shows.
const MOST_BYTES: usize = 24;

/// The number of bytes of a print that are shown, in narrower letters.
const MOST_PRINTED: usize = 48;

/// The number of bytes that are shown as numbers.
const MOST_NUMBERS: usize = 8;

/// Bytes of which all are text, line ends included.
fn are_text(bytes: &[u8]) -> bool
    ensures { result ≡ spec.are_text bytes.now }
{
    !bytes.is_empty() && are_text_bytes(bytes)
}

fn are_text_bytes(bytes: &[u8]) -> bool
    ensures { result ≡ list_all spec.is_text_byte bytes.now }
{
    let mut are_text = true;
    for byte in bytes {
        are_text &= is_text_byte(*byte);
    }
    are_text
}

fn is_text_byte(byte: u8) -> bool
    ensures { result ≡ spec.is_text_byte byte }
{
    matches!(byte, b' '..=b'~' | b'\n' | b'\r')
}

/// At most these bytes.
fn front_of(bytes: &[u8], most: usize) -> &[u8]
    ensures { result.now ≡ take most bytes.now }
{
    if bytes.len() <= most {
        bytes
    } else {
        &bytes[..most]
    }
}

/// Appends a byte of a text.
fn push_text_byte(out: &mut String, byte: u8) -> Result<(), AllocError>
    ensures { IfOk result (λ _. string_bytes out.new ≡ string_bytes out.old ++ spec.text_byte byte) }
{
    match byte {
        b'\n' => out.push_str("⏎"),
        b'\r' => out.push_str("␍"),
        _ => out.push(char::from(byte)),
    }
}

/// Appends bytes as text, at most `most` of them.
fn push_text(out: &mut String, bytes: &[u8], most: usize) -> Result<(), AllocError>
    ensures { IfOk result (λ _. string_bytes out.new ≡ string_bytes out.old ++ spec.quoted most bytes.now) }
{
    out.push_str("“")?;
    for byte in front_of(bytes, most) {
        push_text_byte(out, *byte)?;
    }
    out.push_str("”")
}

/// Appends bytes as two digits each.
fn push_numbers(out: &mut String, bytes: &[u8]) -> Result<(), AllocError>
    ensures { IfOk result (λ _. string_bytes out.new ≡ string_bytes out.old ++ spec.numbered bytes.now) }
{
    for byte in front_of(bytes, MOST_NUMBERS) {
        push_digits(out, *byte)?;
    }
    Ok(())
}

/// Appends a byte as two digits, and a space.
fn push_digits(out: &mut String, byte: u8) -> Result<(), AllocError>
    ensures { IfOk result (λ _. string_bytes out.new ≡ string_bytes out.old ++ spec.digit_pair byte) }
{
    push_digit(out, byte / 16)?;
    push_digit(out, byte % 16)?;
    out.push_str(" ")
}

/// Appends a digit of a byte.
fn push_digit(out: &mut String, value: u8) -> Result<(), AllocError>
    requires { value < 16 }
    ensures { IfOk result (λ _. string_bytes out.new ≡ string_bytes out.old ++ digit_glyph false value ∷ []) }
{
    let digit = if value < 10 {
        b'0' + value
    } else {
        b'a' + (value - 10)
    };
    out.push(char::from(digit))
}

/// Appends the number of bytes, where not all are shown, or there are none.
fn push_count(out: &mut String, count: usize, most: usize) -> Result<(), AllocError>
    ensures { IfOk result (λ _. string_bytes out.new ≡ string_bytes out.old ++ spec.count_words most count) }
{
    if count > most || count == 0 {
        out.push_str("… ")?;
        write!(out, "{count} bytes")
    } else {
        Ok(())
    }
}

/// The bytes of digits in hex; none where they are no digits.
pub fn bytes_in(alloc: Global, digits: &str) -> Result<Vec<u8>, AllocError>
    ensures { IfOk result (λ bytes. bytes.items ≡ spec.bytes_in digits.now) }
{
    match hex::decode(alloc, digits) {
        Ok(bytes) => Ok(bytes),
        Err(FromHexError::OutOfMemory) => Err(AllocError),
        Err(_) => Ok(Vec::new(alloc)),
    }
}

/// Appends bytes: text in quotes, of at most `most_text` bytes, where they are text, otherwise two digits for each byte.
fn push_shown(out: &mut String, bytes: &[u8], most_text: usize) -> Result<(), AllocError>
    ensures { IfOk result (λ _. string_bytes out.new ≡ string_bytes out.old ++ spec.shown_bytes most_text bytes.now) }
{
    if are_text(bytes) {
        push_text(out, bytes, most_text)?;
        push_count(out, bytes.len(), most_text)
    } else {
        push_numbers(out, bytes)?;
        push_count(out, bytes.len(), MOST_NUMBERS)
    }
}

/// Appends what the digits of a print's bytes stand for.
pub(crate) fn push_printed(alloc: Global, out: &mut String, digits: &str) -> Result<(), AllocError>
    ensures { IfOk result (λ _. string_bytes out.new ≡ string_bytes out.old ++ spec.printed_words digits.now) }
{
    let bytes = bytes_in(alloc, digits)?;
    push_shown(out, bytes.as_slice(), MOST_PRINTED)
}

/// Appends what the digits of bytes stand for.
pub(crate) fn push_bytes(alloc: Global, out: &mut String, digits: &str) -> Result<(), AllocError>
    ensures { IfOk result (λ _. string_bytes out.new ≡ string_bytes out.old ++ spec.bytes_words digits.now) }
{
    let bytes = bytes_in(alloc, digits)?;
    push_shown(out, bytes.as_slice(), MOST_BYTES)
}
