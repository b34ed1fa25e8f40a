//! What motes run, as the lines of a script say it.

use crate::network::links::{Span, read_span};
use std::alloc::{AllocError, Global};
use std::str;

/// The applications of motes whose numbers follow one another.
#[derive(Clone, Copy, Drop)]
pub(crate) struct Name<'a> {
    motes: Span,
    words: &'a str,
}

/// What comes after an option and its argument, where there is one.
fn without_option(words: &str) -> &str {
    if !words.starts_with("--") {
        return words;
    }
    match words.splitn(3, ' ').nth(2) {
        Some(later) => later,
        None => "",
    }
}

/// What comes after the options of a line: a mote has four sizes.
fn without_options(words: &str) -> &str {
    let words = without_option(without_option(words));
    without_option(without_option(words))
}

/// What a line `mote N ..` says, without its first word. A list of calls is only named as such.
fn read_name(text: &str) -> Option<Name<'_>> {
    let (span, rest) = text.split_once(' ')?;
    let words = without_options(rest);
    Some(Name {
        motes: read_span(span)?,
        words: if words.starts_with("calls ") {
            "calls"
        } else {
            words
        },
    })
}

/// The names of a script, in order.
pub(crate) fn read_names<'a>(
    alloc: Global,
    script: &[&'a [u8]],
) -> Result<Vec<Name<'a>>, AllocError> {
    let mut names = Vec::new(alloc);
    for part in script {
        let text = match str::from_utf8(part) {
            Ok(line) => line.strip_prefix("mote ").unwrap_or(""),
            Err(_) => "",
        };
        if let Some(name) = read_name(text) {
            names.push(name)?;
        }
    }
    Ok(names)
}

/// What a mote runs; empty where no line says it.
pub(crate) fn name_of<'a>(names: &[Name<'a>], mote: u64) -> &'a str {
    for name in names {
        if name.motes.has(mote) {
            return name.words;
        }
    }
    ""
}
