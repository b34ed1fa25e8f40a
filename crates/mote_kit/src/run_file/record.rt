//! What a file says of a run, as JSON, so that other programs needn't parse the format.

use crate::mote::Sizes;
use crate::run_file::parts::Part;
use crate::run_file::written_run::WrittenRun;
use std::alloc::{AllocError, Global};
use std::fmt::Write;

/// Appends a character of a text in JSON.
fn push_char(json: &mut String, c: char) -> Result<(), AllocError> {
    let text = match c {
        '"' => "\\\"",
        '\\' => "\\\\",
        '\n' => "\\n",
        '\r' => "\\r",
        '\t' => "\\t",
        '\u{8}' => "\\b",
        '\u{c}' => "\\f",
        '\0'..='\u{1f}' => {
            return write!(json, "\\u{:04x}", u32::from(c)).or(Err(AllocError));
        }
        _ => return json.push(c),
    };
    json.push_str(text)
}

/// Appends a text in JSON; null where there is none.
fn push_text(json: &mut String, text: Option<&str>) -> Result<(), AllocError> {
    let Some(text) = text else {
        return json.push_str("null");
    };
    json.push('"')?;
    for c in text.chars() {
        push_char(json, c)?;
    }
    json.push('"')
}

/// Appends texts, each after what is before it.
fn push_texts(json: &mut String, texts: &[(&str, Option<&str>)]) -> Result<(), AllocError> {
    for (before, text) in texts {
        json.push_str(before)?;
        push_text(json, *text)?;
    }
    Ok(())
}

/// Appends texts as a list.
fn push_list(json: &mut String, texts: &[&str]) -> Result<(), AllocError> {
    let mut before = "[";
    for text in texts {
        json.push_str(before)?;
        push_text(json, Some(*text))?;
        before = ",";
    }
    json.push_str("]")
}

/// Appends the applications of a run, each as a list of its lines.
fn push_applications(json: &mut String, run: &WrittenRun<'_>) -> Result<(), AllocError> {
    let mut before = "";
    for application in &run.applications {
        json.push_str(before)?;
        push_list(json, application.lines.as_slice())?;
        before = ",";
    }
    Ok(())
}

/// Appends the arguments of `mote` and `mote-picture` for these sizes.
fn push_sizes(json: &mut String, sizes: Sizes) -> Result<(), AllocError> {
    for (before, size) in [
        ("\"--mmem\",\"", Some(sizes.mmem)),
        ("\",\"--heap\",\"", Some(sizes.heap)),
        ("\",\"--quota\",\"", sizes.quota),
        ("\",\"--header\",\"", Some(sizes.header)),
    ] {
        if let Some(size) = size {
            write!(json, "{before}{size}").or(Err(AllocError))?;
        }
    }
    json.push('"')
}

/// Appends the arguments of `mote` and `mote-picture` for a run, or for a network those of `network`.
fn push_words(json: &mut String, run: &WrittenRun<'_>) -> Result<(), AllocError> {
    if !run.is_network() {
        push_sizes(json, run.sizes())?;
    }
    json.push_str(match (run.is_quiet(), run.is_network()) {
        (true, true) => "\"--quiet\"",
        (true, false) => ",\"--quiet\"",
        (false, _) => "",
    })
}

/// Appends what a file says of a run, as an object of JSON.
fn push_record(json: &mut String, part: Part<'_>, run: &WrittenRun<'_>) -> Result<(), AllocError> {
    let before_script = if run.is_network() {
        ",\"network\":true,\"script\":"
    } else {
        ",\"network\":false,\"script\":"
    };
    json.push_str("{\"applications\":[")?;
    push_applications(json, run)?;
    push_texts(
        json,
        &[
            ("],\"ends\":", run.end()),
            (",\"file\":", Some(part.path)),
            (",\"name\":", part.name),
            (before_script, Some(run.script())),
            (",\"transcript\":", run.transcript_shown()),
        ],
    )?;
    json.push_str(",\"words\":[")?;
    push_words(json, run)?;
    json.push_str("]}")
}

/// What a file says of the run of one of its parts, as a line of JSON without its end.
pub fn json_of(alloc: Global, part: Part<'_>, run: &WrittenRun<'_>) -> Result<String, AllocError> {
    let mut json = String::new(alloc);
    push_record(&mut json, part, run)?;
    Ok(json)
}
