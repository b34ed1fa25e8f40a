//! The lines of a transcript.

ghost use Rattle.std.specs.Prelude.{◌≡◌, ◌==◌, All, IfOk, IfErr, IfNone, IfSome};
ghost use Rattle.std.specs.List.{slice_split};
ghost use Rattle.pictures.specs.Rows.{bytes_of};
ghost use Rattle.mote_picture.specs.Reading as spec;
ghost use Rattle.mote_picture.specs.Reading.{IsLine, IsUnread};

use crate::undrawn::Undrawn;
use pictures::transcript::read_line;
use std::alloc::{AllocError, Global};
use std::str;

/// The text of a line, where it is one of a transcript.
fn line_of(bytes: &[u8]) -> Option<&str>
    ensures same { IfSome result (λ line. line.now ≡ bytes.now) }
    ensures read { IfSome result (λ line. IsLine line.now) }
    ensures none { IfNone result (IsLine bytes.now → ⊥) }
{
    let Ok(text) = str::from_utf8(bytes) else {
        return None;
    };
    match read_line(text) {
        Some(_) => Some(text),
        None => None,
    }
}

/// The bytes without the line end after them.
fn without_end(bytes: &[u8]) -> &[u8]
    ensures { result.now ≡ spec.without_end bytes.now }
{
    bytes.strip_suffix(b"\n").unwrap_or(bytes)
}

/// What is between the line ends.
fn split_at_ends(alloc: Global, bytes: &[u8]) -> Result<Vec<&[u8]>, AllocError>
    ensures { IfOk result (λ parts. bytes_of parts.items ≡ slice_split (λ byte. byte == 10) bytes.now) }
{
    bytes.split(|byte| *byte == b'\n').collect(alloc)
}

/// The same without a line end after the last part; where there are no bytes there are no parts.
pub(crate) fn parts_of(alloc: Global, bytes: &[u8]) -> Result<Vec<&[u8]>, AllocError>
    ensures { IfOk result (λ parts. bytes_of parts.items ≡ spec.parts_of bytes.now) }
{
    if bytes.is_empty() {
        return Ok(Vec::new(alloc));
    }
    split_at_ends(alloc, without_end(bytes))
}

/// The texts of the parts, which are lines of a transcript.
fn texts_of<'a>(alloc: Global, parts: &[&'a [u8]]) -> Result<Vec<&'a str>, Undrawn>
    ensures lines { IfOk result (λ lines. bytes_of lines.items ≡ bytes_of parts.now) }
    ensures read { IfOk result (λ _. All IsLine (bytes_of parts.now)) }
    ensures unread { IfErr result (IsUnread (bytes_of parts.now)) }
{
    let mut lines = Vec::new(alloc);
    for index in 0..parts.len() {
        let Some(line) = line_of(parts[index]) else {
            return Err(Undrawn::NoLine(index as u64 + 1));
        };
        lines.push(line)?;
    }
    Ok(lines)
}

/// The lines of a transcript, without their ends.
///
/// # Errors
///
/// `NoLine` with the number of the first line that no transcript has, or `Memory` where memory was refused.
pub fn lines_of(alloc: Global, bytes: &[u8]) -> Result<Vec<&str>, Undrawn>
    ensures lines { IfOk result (λ lines. bytes_of lines.items ≡ spec.parts_of bytes.now) }
    ensures read { IfOk result (λ _. All IsLine (spec.parts_of bytes.now)) }
    ensures unread { IfErr result (IsUnread (spec.parts_of bytes.now)) }
{
    let parts = parts_of(alloc, bytes)?;
    texts_of(alloc, parts.as_slice())
}
