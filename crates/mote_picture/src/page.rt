//! The page of a run: one HTML file in which the run's transcript is data, beside a script that lays it out.
//!
//! The files of `crates/mote_picture/web` are the page without its data; `src/page/template` is made of them by `scripts/page-template`.

ghost use Rattle.std.specs.Prelude.{◌≡◌, ◌-◌, ◌++◌, string_bytes, IfOk};
ghost use Rattle.mote_picture.specs.Page as spec;
ghost use Rattle.mote_picture.specs.Page.{begins_with, IsPage};

mod data;
mod members;
mod template;
mod words;

use crate::named::Named;
use data::Data;
use members::rest_of;
use pictures::rows::shown_of;
use std::alloc::{AllocError, Global};
use template::markup::{BODY, END, FOOT, HEAD};
use template::script::SCRIPT;
use template::style::STYLE;

/// The lines, a line end after each.
fn ended_lines(alloc: Global, lines: &[&str]) -> Result<String, AllocError>
    ensures { IfOk result (λ text. string_bytes text ≡ spec.ended_lines lines.now) }
{
    let mut text = String::new(alloc);
    for line in lines {
        text.push_str(line)?;
        text.push_str("\n")?;
    }
    Ok(text)
}

/// Data that begins with a text and a title.
fn data_of(alloc: Global, text: &str, title: &str, rest: &Data) -> Result<Data, AllocError>
    ensures { IfOk result (λ members. members ≡ begins_with text.now title.now rest.now) }
{
    let mut members = Data::new(alloc);
    members.put("{\"text\":")?;
    members.say(text)?;
    members.put(",\"title\":")?;
    members.say(title)?;
    members.append(rest)?;
    Ok(members)
}

/// A page of these parts.
fn filled(alloc: Global, front: &str, members: &Data, back: &str) -> Result<Vec<u8>, AllocError>
    ensures { IfOk result (λ page. page.items ≡ front.now ++ members.now ++ back.now) }
{
    let mut page = Vec::new(alloc);
    page.extend_from_slice(front.as_bytes())?;
    page.extend_from_slice(members.bytes())?;
    page.extend_from_slice(back.as_bytes())?;
    Ok(page)
}

/// The page of a run between a front and a back.
fn page_between(
    alloc: Global,
    lines: &[&str],
    title: &str,
    named: &Named<'_>,
    front: &str,
    back: &str,
) -> Result<Vec<u8>, AllocError>
    ensures { IfOk result (λ page. IsPage lines.now title.now named.now.from named.now.to front.now back.now page.items) }
{
    let shown = shown_of(lines, named.from, named.to);
    let text = ended_lines(alloc, &lines[shown.first..shown.end])?;
    let rest = rest_of(alloc, lines, shown, named)?;
    let members = data_of(alloc, text.as_str(), title, &rest)?;
    members.is_harmless();
    filled(alloc, front, &members, back)
}

/// A text of three parts.
fn joined(alloc: Global, first: &str, second: &str, third: &str) -> Result<String, AllocError>
    ensures { IfOk result (λ text. string_bytes text ≡ first.now ++ second.now ++ third.now) }
{
    let mut text = String::from_str(alloc, first)?;
    text.push_str(second)?;
    text.push_str(third)?;
    Ok(text)
}

/// The page of a run, from the lines of its transcript: they are in it as data, in which there is nothing that could end the element
/// that holds them.
///
/// # Errors
///
/// `AllocError` where memory was refused.
pub(crate) fn page_of(
    alloc: Global,
    lines: &[&str],
    title: &str,
    named: &Named<'_>,
) -> Result<Vec<u8>, AllocError>
    ensures { IfOk result (λ page. IsPage lines.now title.now named.now.from named.now.to (HEAD.now ++ STYLE.now ++ BODY.now)
        (FOOT.now ++ SCRIPT.now ++ END.now) page.items) }
{
    let front = joined(alloc, HEAD, STYLE, BODY)?;
    let back = joined(alloc, FOOT, SCRIPT, END)?;
    page_between(alloc, lines, title, named, front.as_str(), back.as_str())
}
