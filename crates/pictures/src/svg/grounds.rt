//! The grounds of the rows, each of which shows its lines when it is pointed at.

ghost use Rattle.std.specs.Prelude.{◌≡◌, ◌+◌, ◌^◌, ◌<◌, ◌≤◌, length, string_bytes, All, IfOk};
ghost use Rattle.pictures.specs.Svg.Titles as spec;
ghost use Rattle.pictures.specs.Svg.Titles.{ended_lines, IsGround, AreGrounds};
ghost use Rattle.pictures.specs.Rows.{bytes_of};

use crate::rows::{Row, Show};
use crate::svg::markup::{Content, Element};
use crate::svg::page::pen::{Area, Point, area_element, title_element};
use crate::svg::page::{Page, ROW};
use std::alloc::{AllocError, Global};

/// The lines, a line end after each.
fn raw_lines(alloc: Global, lines: &[&str]) -> Result<String, AllocError>
    ensures { IfOk result (λ text. string_bytes text ≡ ended_lines (bytes_of lines.now)) }
{
    let mut text = String::new(alloc);
    for line in lines {
        text.push_str(line)?;
        text.push_str("\n")?;
    }
    Ok(text)
}

/// The lines of a row.
pub(crate) fn lines_of<'a, 'b>(lines: &'b [&'a str], row: &Row) -> &'b [&'a str] {
    let first = row.first.min(lines.len());
    let end = row.first.saturating_add(row.count).min(lines.len());
    &lines[first..end.max(first)]
}

/// What folded lines say, by their number and the first one.
fn folded_title(alloc: Global, first: usize, count: usize, line: &str) -> Result<String, AllocError>
    requires some { 0 < count }
    requires end { first + count < 2 ^ 64 }
    ensures { IfOk result (λ title. string_bytes title ≡ spec.folded_title first count line.now) }
{
    let from = first + 1;
    let to = first + count;
    format!(in alloc; "lines {from} to {to}, {count} in all; the first: {line}")
}

/// What a row says of its lines: all of them, or where lines are folded their numbers, how many they are, and the first.
fn title_of(alloc: Global, lines: &[&str], row: &Row) -> Result<String, AllocError>
    requires some { 0 < row.now.count }
    requires there { row.now.first + row.now.count ≤ length lines.now }
    ensures { IfOk result (λ title. string_bytes title ≡ spec.title_of (bytes_of lines.now) row.now) }
{
    let Row { first, count, show } = *row;
    match show {
        Show::Lines => raw_lines(alloc, &lines[first..first + count]),
        Show::Ticks | Show::Again(_) => folded_title(alloc, first, count, lines[first]),
    }
}

/// The class of a row's ground, by its first line.
fn class_of(line: Option<&str>) -> &'static str {
    match line {
        Some(line) if line.starts_with("> ") => "i",
        Some(line) if line == "halt" || line == "too long" || line.starts_with("bad") => "x",
        _ => "t",
    }
}

/// The ground of the row at a position, counted from above.
fn ground_of(
    alloc: Global,
    page: &Page,
    lines: &[&str],
    row: &Row,
    index: usize,
) -> Result<Element, AllocError>
    requires some { 0 < row.now.count }
    requires there { row.now.first + row.now.count ≤ length lines.now }
    ensures { IfOk result (λ element. IsGround (bytes_of lines.now) row.now element) }
{
    let area = Area {
        corner: Point {
            left: 0,
            top: page.top_of(index),
        },
        width: page.words_end(),
        height: ROW,
    };
    let title = title_of(alloc, lines, row)?;
    let title = title_element(alloc, title.as_str())?;
    let class = class_of(lines.get(row.first).copied());
    let ground = area_element(alloc, class, area)?.holding(&title)?;
    ground.is_well_formed();
    Ok(ground)
}

/// The grounds of all rows.
pub(crate) fn grounds_of(
    alloc: Global,
    page: &Page,
    lines: &[&str],
    rows: &[Row],
) -> Result<Content, AllocError>
    requires { All (λ row. (0 < row.count) × (row.first + row.count ≤ length lines.now)) rows.now }
    ensures { IfOk result (λ grounds. AreGrounds (bytes_of lines.now) rows.now grounds) }
{
    let mut grounds = Content::new(alloc);
    let mut index: usize = 0;
    for row in rows {
        let ground = ground_of(alloc, page, lines, row, index)?;
        grounds.hold(&ground)?;
        index = index.saturating_add(1);
    }
    Ok(grounds)
}
