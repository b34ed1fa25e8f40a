//! What a person may write instead of numbers and bytes: names of events, and texts in quotes.

use crate::run_file::line::begins_with_digit;
use mote_types::event;
use std::alloc::{AllocError, Global};

/// The number of the event of this name.
fn event_number(name: &str) -> Option<u8> {
    match name {
        "NONE" => Some(event::NONE),
        "INIT" => Some(event::INIT),
        "POLL" => Some(event::POLL),
        "EXIT" => Some(event::EXIT),
        "SERVICE_REMOVED" => Some(event::SERVICE_REMOVED),
        "CONTINUE" => Some(event::CONTINUE),
        "MSG" => Some(event::MSG),
        "EXITED" => Some(event::EXITED),
        "TIMER" => Some(event::TIMER),
        "COM" => Some(event::COM),
        "MAX" => Some(event::MAX),
        "SERIAL_LINE" => Some(event::SERIAL_LINE),
        "PACKET" => Some(event::PACKET),
        _ => None,
    }
}

/// Whether names and quotes may be in a line, apart from `times` and a number before it.
fn may_have(line: &str) -> bool {
    let (word, _) = line.split_once(' ').unwrap_or((line, ""));
    matches!(
        word,
        "calls" | "on" | "mote" | "serial" | "frame" | ">" | "note"
    ) || begins_with_digit(line)
}

/// A line without `times` and the number after it.
fn once(line: &str) -> &str {
    let Some(rest) = line.strip_prefix("times ") else {
        return line;
    };
    match rest.split_once(' ') {
        Some((_, repeated)) => repeated,
        None => line,
    }
}

/// A text in which numbers and hex replace names and quotes, and room for one of its lines.
#[derive(Drop)]
struct PlainText {
    text: String,
    /// The line with hex instead of quotes.
    line: String,
    /// What is within the last quotes.
    quoted: String,
}

/// Where a character is.
#[derive(Clone, Copy, Drop)]
enum Quoting {
    Outside,
    Within,
    /// After a backslash within quotes.
    Escaped,
}

/// A text of a file in which numbers and hex have replaced all names and quotes, line by line. A line with malformed quotes
/// stays as it is.
pub fn plain_text(alloc: Global, text: &str) -> Result<String, AllocError> {
    let mut plain = PlainText {
        text: String::new(alloc),
        line: String::new(alloc),
        quoted: String::new(alloc),
    };
    plain.push_lines(alloc, text)?;
    Ok(plain.text)
}

impl PlainText {
    fn push_lines(&mut self, alloc: Global, text: &str) -> Result<(), AllocError> {
        for line in text.split_inclusive('\n') {
            let rest = once(line);
            self.text.push_str(line.strip_suffix(rest).unwrap_or(""))?;
            if may_have(rest) && self.unquote(alloc, rest)? {
                push_numbered(alloc, &mut self.text, self.line.as_str())?;
            } else {
                self.text.push_str(rest)?;
            }
        }
        Ok(())
    }

    /// Stores a line with hex instead of each text in quotes. Returns whether it could: not where a quote has no end, or an escape is
    /// malformed.
    fn unquote(&mut self, alloc: Global, line: &str) -> Result<bool, AllocError> {
        self.line.clear();
        self.quoted.clear();
        let mut at = Quoting::Outside;
        for c in line.chars() {
            at = match (at, c) {
                (Quoting::Within | Quoting::Escaped, '\n') => return Ok(false),
                (Quoting::Outside, '"') => Quoting::Within,
                (Quoting::Outside, _) => {
                    self.line.push(c)?;
                    Quoting::Outside
                }
                (Quoting::Within, '"') => {
                    self.push_hex(alloc)?;
                    Quoting::Outside
                }
                (Quoting::Within, '\\') => Quoting::Escaped,
                (Quoting::Escaped, c) if !matches!(c, 'n' | '"' | '\\') => return Ok(false),
                (at, c) => {
                    self.quoted.push(unescaped(at, c))?;
                    Quoting::Within
                }
            };
        }
        Ok(matches!(at, Quoting::Outside))
    }

    /// Appends the hex of what is within quotes. For nothing that is a dash, but nothing after the `x` of a line.
    fn push_hex(&mut self, alloc: Global) -> Result<(), AllocError> {
        if self.quoted.is_empty() && !self.line.ends_with('x') {
            return self.line.push('-');
        }
        let digits = hex::encode(alloc, self.quoted.as_bytes())?;
        self.quoted.clear();
        self.line.push_str(digits.as_str())
    }
}

/// The character that a character within quotes is for.
fn unescaped(at: Quoting, c: char) -> char {
    match (at, c) {
        (Quoting::Escaped, 'n') => '\n',
        _ => c,
    }
}

/// Appends a line, with numbers instead of the names of events.
fn push_numbered(alloc: Global, plain: &mut String, line: &str) -> Result<(), AllocError> {
    let mut before = ("", "");
    let mut index = 0usize;
    for word in line.split(' ') {
        if index > 0 {
            plain.push(' ')?;
        }
        if is_code_after(before, index) {
            push_code(alloc, plain, word)?;
        } else {
            plain.push_str(word)?;
        }
        before = (before.1, word);
        index = index.saturating_add(1);
    }
    Ok(())
}

/// Appends the word of an event's code, with the number instead of a name.
fn push_code(alloc: Global, plain: &mut String, word: &str) -> Result<(), AllocError> {
    let name = word.strip_suffix(':').unwrap_or(word);
    let Some(number) = event_number(name) else {
        return plain.push_str(word);
    };
    let after = word.strip_prefix(name).unwrap_or("");
    plain.push_str(format!(in alloc; "{number}{after}")?.as_str())
}

/// Whether an event's code follows these two words, as the word of this number.
fn is_code_after(before: (&str, &str), index: usize) -> bool {
    match before {
        ("post" | "post-synch", _) => true,
        (_, "broadcast") => true,
        // In a network's transcript the number of a mote is in front.
        (_, "event" | "synch" | "poll") => index == 2 || index == 3,
        (_, "on") => index == 1,
        _ => false,
    }
}
