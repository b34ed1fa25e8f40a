//! Where a text differs from the expected one, for a human reader: the first line that does.

ghost use Rattle.std.specs.Prelude.{◌≡◌, ◌≢◌, ◌≤◌, ◌==◌, ◌+◌, ◌-◌, ◌^◌, filter, length, min, OnOk, OnErr};

use std::fmt;

/// The number of lines shown before the one that differs.
pub const LINES_BEFORE: usize = 3;

/// The first line at which a text differs from the one that was wanted.
#[derive(Clone, Copy, Drop)]
pub struct Difference<'a> {
    /// The lines before it, which both texts have, with their line ends.
    pub before: &'a [u8],
    /// The line that was wanted, with its line end; empty where the wanted text has ended.
    pub wanted: &'a [u8],
    /// The line that is there instead.
    pub found: &'a [u8],
}

/// The number of bytes that two texts have in common from their beginning on.
fn common_length(wanted: &[u8], found: &[u8]) -> usize
    ensures wanted { result ≤ length wanted.now }
    ensures found { result ≤ length found.now }
{
    let most = wanted.len().min(found.len());
    for index in 0..most {
        if wanted[index] != found[index] {
            return index;
        }
    }
    most
}

/// Where the line begins that this text ends in.
fn last_line_begins(text: &[u8]) -> usize
    ensures { result ≤ length text.now }
{
    match text.iter().rposition(|byte| *byte == b'\n') {
        Some(end) => end + 1,
        None => 0,
    }
}

/// The number of line ends in a text.
pub(crate) fn line_ends(text: &[u8]) -> usize
    ensures { result ≡ length (filter (λ byte. byte == 10) text.now) }
{
    text.iter().filter(|byte| **byte == b'\n').count()
}

/// The line of a text that begins at this offset, with its line end if it has one.
fn line_at(text: &[u8], offset: usize) -> &[u8]
    requires { offset ≤ length text.now }
{
    let rest = &text[offset..];
    match rest.iter().position(|byte| *byte == b'\n') {
        Some(end) => &rest[..=end],
        None => rest,
    }
}

/// Compares a text with the one that was wanted.
///
/// # Errors
///
/// The first line that differs, exactly where the texts do.
pub fn compare<'a>(wanted: &'a [u8], found: &'a [u8]) -> Result<(), Difference<'a>>
    ensures same { OnOk result (wanted.entry.now ≡ found.entry.now) }
    ensures differs { OnErr result (wanted.entry.now ≢ found.entry.now) }
{
    if wanted == found {
        return Ok(());
    }
    let common = common_length(wanted, found);
    let start = last_line_begins(&wanted[..common]);
    Err(Difference {
        before: &wanted[..start],
        wanted: line_at(wanted, start),
        found: line_at(found, start),
    })
}

/// Writes a line under its number.
fn write_line<W: fmt::Write>(f: &mut fmt::Formatter<W>, title: &str, line: &[u8]) -> fmt::Result {
    match str::from_utf8(line) {
        Ok("") => writeln!(f, "{title}  nothing more"),
        Ok(text) => match text.strip_suffix('\n') {
            Some(text) => writeln!(f, "{title}  {text}"),
            None => writeln!(f, "{title}  {text} (and no line end)"),
        },
        Err(_) => writeln!(f, "{title}  {line:?}, which is no text"),
    }
}

impl Difference<'_> {
    /// The number of the line, from 1 on.
    pub fn number(&self) -> usize
        ensures { result ≡ min (length (filter (λ byte. byte == 10) self.now.before.now) + 1) (2 ^ 64 - 1) }
    {
        line_ends(self.before).saturating_add(1)
    }
}

impl fmt::Display for Difference<'_> {
    /// The number of the line, three lines before it, and both lines, as a person reads them.
    fn fmt<W: fmt::Write>(&self, f: &mut fmt::Formatter<W>) -> fmt::Result {
        let number = self.number();
        writeln!(f, "line {number} of the transcript differs")?;
        let first = number.saturating_sub(LINES_BEFORE);
        for (index, line) in self
            .before
            .split_inclusive(|byte| *byte == b'\n')
            .enumerate()
        {
            if index.saturating_add(1) >= first {
                write_line(f, "        ", line)?;
            }
        }
        write_line(f, "wanted: ", self.wanted)?;
        write_line(f, "found:  ", self.found)
    }
}

impl fmt::Debug for Difference<'_> {
    /// As it is displayed, so that a test that fails with it can be read.
    fn fmt<W: fmt::Write>(&self, f: &mut fmt::Formatter<W>) -> fmt::Result {
        fmt::Display::fmt(self, f)
    }
}
