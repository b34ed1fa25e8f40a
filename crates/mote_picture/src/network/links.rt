//! The links of a network, as the lines of its script say them.

use crate::network::undrawn::Undrawn;
use mote_text::script::read_number;
use pictures::network::Link;
use std::alloc::{AllocError, Global};
use std::str;

/// Whether a line is one of a script, by its first words. No line of a transcript has these.
pub(crate) fn is_of_script(line: &str) -> bool {
    let (word, rest) = match line.split_once(' ') {
        Some((word, rest)) => (word, rest),
        None => (line, ""),
    };
    match word {
        "" | "mote" | "link" | "line" | "ring" | "mesh" | "grid" | "room" | "rounds" | "tick" => {
            true
        }
        _ => {
            line.starts_with("#")
                || rest.starts_with("frame ") && read_number(word.as_bytes()).is_some()
                || rest.starts_with("serial ") && read_number(word.as_bytes()).is_some()
        }
    }
}

/// Motes whose numbers follow one another.
#[derive(Clone, Copy, Drop)]
pub(crate) struct Span {
    first: u32,
    last: u32,
}

impl Span {
    /// Whether a mote is one of these.
    pub(crate) fn has(&self, mote: u64) -> bool {
        self.first as u64 <= mote && mote <= self.last as u64
    }
}

/// The number of a mote, or another that is at least 1.
fn positive(word: &str) -> Option<u32> {
    match read_number(word.as_bytes()) {
        Some(number) if number > 0 => Some(number),
        _ => None,
    }
}

/// The motes that a word says: `3` or `3..40`.
pub(crate) fn read_span(word: &str) -> Option<Span> {
    let (first, last) = match word.split_once("..") {
        Some((first, last)) => (positive(first)?, positive(last)?),
        None => (positive(word)?, positive(word)?),
    };
    if first <= last {
        Some(Span { first, last })
    } else {
        None
    }
}

/// The delay of a link, whose words begin `delay N`: the rule for losses that may follow says nothing that a picture needs.
fn read_delay(words: &str) -> Option<u32> {
    let rest = words.strip_prefix("delay ")?;
    match rest.split_once(' ') {
        Some((delay, _)) => positive(delay),
        None => positive(rest),
    }
}

/// The links that are read.
#[derive(Drop)]
struct Links {
    links: Vec<Link>,
}

impl Links {
    fn add(&mut self, from: u32, to: u32, delay: u32) -> Result<(), AllocError> {
        self.links.push(Link {
            from: from as u64,
            to: to as u64,
            delay: delay as u64,
        })?;
        Ok(())
    }

    /// Links both ways.
    fn add_pair(&mut self, a: u32, b: u32, delay: u32) -> Result<(), AllocError> {
        self.add(a, b, delay)?;
        self.add(b, a, delay)
    }

    /// Links each mote and the next one.
    fn add_line(&mut self, span: Span, delay: u32) -> Result<(), AllocError> {
        for a in span.first..span.last {
            self.add_pair(a, a.saturating_add(1), delay)?;
        }
        Ok(())
    }

    /// Links each two motes.
    fn add_mesh(&mut self, span: Span, delay: u32) -> Result<(), AllocError> {
        for a in span.first..span.last {
            self.add_from(a, span.last, delay)?;
        }
        Ok(())
    }

    /// Links a mote and each one after it.
    fn add_from(&mut self, a: u32, last: u32, delay: u32) -> Result<(), AllocError> {
        for b in a.saturating_add(1)..=last {
            self.add_pair(a, b, delay)?;
        }
        Ok(())
    }

    /// Links each mote with its neighbours in rows of `width` motes.
    fn add_grid(&mut self, span: Span, width: u32, delay: u32) -> Result<(), AllocError> {
        for a in span.first..=span.last {
            let column = a.saturating_sub(span.first).checked_rem(width);
            if column != Some(width.saturating_sub(1)) && a < span.last {
                self.add_pair(a, a.saturating_add(1), delay)?;
            }
            if let Some(below) = a.checked_add(width) {
                if below <= span.last {
                    self.add_pair(a, below, delay)?;
                }
            }
        }
        Ok(())
    }

    /// `link A B delay D`, without its first word.
    fn take_link(&mut self, text: &str) -> Option<Result<(), AllocError>> {
        let (from, rest) = text.split_once(' ')?;
        let (to, rest) = rest.split_once(' ')?;
        Some(self.add(positive(from)?, positive(to)?, read_delay(rest)?))
    }

    /// `grid N..M width W delay D`, without its first word.
    fn take_grid(&mut self, text: &str) -> Option<Result<(), AllocError>> {
        let (span, rest) = text.split_once(' ')?;
        let (width, rest) = rest.strip_prefix("width ")?.split_once(' ')?;
        Some(self.add_grid(read_span(span)?, positive(width)?, read_delay(rest)?))
    }

    /// `line`, `ring` or `mesh`, `N..M delay D`.
    fn take_shape(&mut self, word: &str, text: &str) -> Option<Result<(), AllocError>> {
        let (span, rest) = text.split_once(' ')?;
        let (span, delay) = (read_span(span)?, read_delay(rest)?);
        match word {
            "line" => Some(self.add_line(span, delay)),
            "mesh" => Some(self.add_mesh(span, delay)),
            _ => match self.add_line(span, delay) {
                Ok(()) => Some(self.add_pair(span.last, span.first, delay)),
                Err(error) => Some(Err(error)),
            },
        }
    }

    /// Takes a line of the script. `None` where it is malformed.
    fn take(&mut self, line: &str) -> Option<Result<(), AllocError>> {
        let Some((word, text)) = line.split_once(' ') else {
            return Some(Ok(()));
        };
        match word {
            "link" => self.take_link(text),
            "grid" => self.take_grid(text),
            "line" | "ring" | "mesh" => self.take_shape(word, text),
            _ => Some(Ok(())),
        }
    }
}

/// The links of a script, in order.
///
/// # Errors
///
/// `BadScript` with the number of the first line that has no links where it should, or `Memory` where memory was refused.
pub(crate) fn read_links(alloc: Global, script: &[&[u8]]) -> Result<Vec<Link>, Undrawn> {
    let mut links = Links {
        links: Vec::new(alloc),
    };
    let mut number: usize = 0;
    for part in script {
        number = number.saturating_add(1);
        let Ok(line) = str::from_utf8(part) else {
            return Err(Undrawn::BadScript(number));
        };
        match links.take(line) {
            Some(taken) => taken?,
            None => return Err(Undrawn::BadScript(number)),
        }
    }
    Ok(links.links)
}
