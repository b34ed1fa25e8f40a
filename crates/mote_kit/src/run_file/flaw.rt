//! What is wrong with the letters of a malformed line.

ghost use Rattle.std.specs.Prelude.{◌≡◌, ◌<◌, ◌↔◌, ◌==◌, None, true, get_or, option_map, IfSome, MatchOption, eqb};
ghost use Rattle.std.specs.List.{list_any, starts_with};
ghost use Rattle.std.specs.Str.Iter.{HasSubslice};
ghost use Rattle.mote_kit.specs.Flaws.{HasCleanBytes, HasCleanSpaces, HasFlaw, last_byte, line_of};

/// What is wrong with the letters of a line.
#[derive(Clone, Copy, Drop)]
pub enum Flaw {
    ByteOrderMark,
    ByteZero,
    /// Byte 13 is last.
    WindowsEnd,
    SpaceAtStart,
    Tab,
    /// A quote has no end, has another escape, or is in a wrong position: otherwise hex has replaced it.
    Quote,
    NoLastCall,
    SpaceBeforeComma,
    NoSpaceAfterComma,
    TwoSpaces,
    SpaceAtEnd,
}

impl Flaw {
    /// What a person reads of it.
    pub fn text(self) -> &'static str {
        match self {
            Flaw::ByteOrderMark => "the file begins with a byte order mark",
            Flaw::ByteZero => "there is a byte 0 in the line",
            Flaw::WindowsEnd => "the line ends with byte 13, as lines of Windows do",
            Flaw::SpaceAtStart => "the line begins with a space",
            Flaw::Tab => "there is a tab in the line",
            Flaw::Quote => {
                "quotes hold a text with \\n for byte 10, \\\" and \\\\, and stand where hex digits do"
            }
            Flaw::NoLastCall => "there is no call after the last comma",
            Flaw::SpaceBeforeComma => "there is a space before a comma",
            Flaw::NoSpaceAfterComma => "there is no space after a comma",
            Flaw::TwoSpaces => "two spaces stand side by side",
            Flaw::SpaceAtEnd => "the line ends with a space",
        }
    }
}

/// Whether a byte is in a line.
fn has_byte(line: &str, byte: u8) -> bool
    ensures { result ≡ list_any (λ b. b == byte) line.now }
{
    line.as_bytes().contains(&byte)
}

/// Whether a text is in a line.
fn has_text(line: &str, text: &str) -> bool
    ensures { (result ≡ true) ↔ HasSubslice line.now text.now }
{
    line.contains(text)
}

/// Whether a line begins with a text.
fn begins_with(line: &str, text: &str) -> bool
    ensures { result ≡ starts_with eqb line.now text.now }
{
    line.starts_with(text)
}

/// Whether a line begins with a space.
fn begins_with_space(line: &str) -> bool
    ensures { result ≡ (get_or line.now 0 0 == 32) }
{
    matches!(line.as_bytes().first(), Some(b' '))
}

/// Whether the last byte of a line is this one.
fn ends_with(line: &str, byte: u8) -> bool
    requires { 0 < byte }
    ensures { result ≡ (last_byte line.now == byte) }
{
    match line.as_bytes().last() {
        Some(last) => *last == byte,
        None => false,
    }
}

/// What is wrong with bytes that are hard to see, or with a quote.
fn flaw_of_bytes(line: &str) -> Option<Flaw>
    ensures { MatchOption result (HasCleanBytes line.now) (HasFlaw line.now) }
{
    if begins_with(line, "\u{feff}") {
        Some(Flaw::ByteOrderMark)
    } else if has_byte(line, 0) {
        Some(Flaw::ByteZero)
    } else if ends_with(line, b'\r') {
        Some(Flaw::WindowsEnd)
    } else if begins_with_space(line) {
        Some(Flaw::SpaceAtStart)
    } else if has_byte(line, b'\t') {
        Some(Flaw::Tab)
    } else if has_byte(line, b'"') {
        Some(Flaw::Quote)
    } else {
        None
    }
}

/// Whether a line has a list of calls with a comma.
fn has_commas(line: &str) -> bool
    ensures { result ≡ true → list_any (λ byte. byte == 44) line.now ≡ true }
{
    has_byte(line, b',')
        && (line.starts_with("calls ") || line.starts_with("on ") || line.starts_with("mote "))
}

/// Whether no space follows some comma.
fn lacks_space(line: &str) -> bool {
    line.matches(',').count() > line.matches(", ").count()
}

/// What is wrong with the commas of a list of calls.
fn flaw_of_commas(line: &str) -> Option<Flaw>
    ensures { IfSome result (HasFlaw line.now) }
{
    if !has_commas(line) {
        None
    } else if line.trim_end().ends_with(',') {
        Some(Flaw::NoLastCall)
    } else if has_text(line, " ,") {
        Some(Flaw::SpaceBeforeComma)
    } else if lacks_space(line) {
        Some(Flaw::NoSpaceAfterComma)
    } else {
        None
    }
}

/// What is wrong with the spaces within a line, as a person would look for it.
fn flaw_of_spaces(line: &str) -> Option<Flaw>
    ensures { MatchOption result (HasCleanSpaces line.now) (HasFlaw line.now) }
{
    if has_text(line, "  ") {
        Some(Flaw::TwoSpaces)
    } else if ends_with(line, b' ') {
        Some(Flaw::SpaceAtEnd)
    } else {
        None
    }
}

/// What is wrong with the letters of a malformed line.
fn flaw_of(line: &str) -> Option<Flaw>
    ensures { MatchOption result (HasCleanBytes line.now × HasCleanSpaces line.now) (HasFlaw line.now) }
{
    if let Some(flaw) = flaw_of_bytes(line) {
        return Some(flaw);
    }
    if let Some(flaw) = flaw_of_commas(line) {
        return Some(flaw);
    }
    flaw_of_spaces(line)
}

/// The line of this number in a text, from 1 on.
fn numbered_line(text: &str, number: usize) -> Option<&str>
    ensures { option_map (λ line. line.now) result ≡ line_of text.now number }
{
    text.split('\n').nth(number.saturating_sub(1))
}

/// What is wrong with the letters of the malformed line of this number in a text, from 1 on: a person finds the mistake sooner by that
/// than by its words. In the text, hex has replaced all well-formed quotes.
pub fn flaw_at(text: &str, line: usize) -> Option<Flaw>
    ensures { MatchOption (line_of text.now line) (result ≡ None)
        (λ l. MatchOption result (HasCleanBytes l × HasCleanSpaces l) (HasFlaw l)) }
{
    match numbered_line(text, line) {
        Some(line) => flaw_of(line),
        None => None,
    }
}
