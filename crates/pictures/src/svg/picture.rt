//! The picture of a run.

ghost use Rattle.std.specs.Prelude.{◌≡◌, ◌≤◌, [], length, IfOk};
ghost use Rattle.pictures.specs.Svg.Markup.{IsDocument};
ghost use Rattle.pictures.specs.Rows.{Cover, bytes_of};
ghost use Rattle.pictures.specs.Svg.Titles.{IsDrawn, ShowsRows, IsPicture};

use crate::marks::{Marks, marks_of};
use crate::memory::Sizes;
use crate::rows::{Row, Shown, rows_of, shown_of};
use crate::svg::drawing::{draw_activations, draw_curves, draw_gifts, draw_lives, draw_words};
use crate::svg::grounds::grounds_of;
use crate::svg::head::{
    Summary, below, draw_difference, draw_ground, draw_head, draw_lanes, draw_legend, push_style,
    push_tally,
};
use crate::svg::markup::{Attribute, Content, Element, Tag};
use crate::svg::page::memory_columns::{draw_heap, draw_managed};
use crate::svg::page::pen::Pen;
use crate::svg::page::pool_columns::{Pools, draw_pools};
use crate::svg::page::{Columns, Page};
use crate::svg::strip::{draw_strip, height_of};
use crate::svg::timer_lines::draw_timers;
use crate::transcript::{Ending, Line, read_line};
use std::alloc::{AllocError, Global};

/// What a picture shows of a transcript.
#[derive(Clone, Copy, Drop)]
pub struct Settings<'a> {
    /// The text above the picture.
    pub title: &'a str,
    /// The names of processes 4, 5, ..; those after them have none.
    pub names: &'a [&'a str],
    /// The clock at the first line that is shown, in ticks.
    pub from: u64,
    /// The clock at the last line that is shown.
    pub to: u64,
    /// The sizes of the mote's memory.
    pub sizes: Sizes,
    /// Whether each line has a row of its own.
    pub unfolded: bool,
}

/// How a run ended, by the last line.
fn end_of(lines: &[&str]) -> &'static str {
    let Some(last) = lines.last() else {
        return "at rest";
    };
    match read_line(last) {
        Some(Line::Ending(Ending::Halt)) => "halt",
        Some(Line::Ending(Ending::BadLine(_))) => "a bad line",
        Some(Line::Ending(Ending::TooLong)) => "too long",
        _ => "at rest",
    }
}

/// The positions of the parts of a picture with these rows, whose overview begins there.
fn page_of(rows: &[Row], marks: &Marks, names: usize, strip: usize) -> Page {
    let lanes = names.max(marks.processes.saturating_sub(4)).min(16);
    let stays = &marks.stays;
    let columns = Columns::new(
        !stays.managed.is_empty(),
        !stays.heap.is_empty(),
        Pools::of(stays.used.as_slice()).count(),
    );
    Page::new(lanes, rows.len(), strip, height_of(lanes), columns)
}

/// What a picture is drawn from: what its rows show together, the words above them, and the positions of its parts.
#[derive(Drop)]
struct Layout {
    marks: Marks,
    head: Content,
    page: Page,
}

/// What the head says of the lines that are shown.
fn summary_of<'a>(lines: &[&str], shown: Shown, marks: &Marks) -> Summary<'a> {
    let is_all = shown.first == 0 && shown.end == lines.len();
    let has_end = is_all || (shown.first < shown.end && shown.end == lines.len());
    Summary {
        from: if is_all { None } else { Some(marks.start) },
        clock: match marks.clocks.as_slice().last() {
            Some(clock) => Some(*clock),
            None if is_all => Some(0),
            None => None,
        },
        end: if has_end { Some(end_of(lines)) } else { None },
        is_quiet: marks.is_quiet,
    }
}

/// Draws the head, and returns where the overview may begin.
fn draw_title(
    pen: &mut Pen,
    settings: &Settings<'_>,
    marks: &Marks,
    summary: &Summary<'_>,
) -> Result<usize, AllocError> {
    let mut title = String::from_str(pen.alloc, settings.title)?;
    if marks.is_quiet {
        title.push_str(" (a quiet transcript)")?;
    }
    let mut tally = String::new(pen.alloc);
    push_tally(&mut tally, &marks.tally, summary)?;
    let stays = &marks.stays;
    let top = draw_head(pen, title.as_str(), tally.as_str())?;
    let top = draw_difference(pen, "managed memory", stays.managed_differs, top)?;
    let top = draw_difference(pen, "heap", stays.differs, top)?;
    Ok(below(top))
}

/// What the picture of these rows is drawn from.
fn layout_of(
    alloc: Global,
    lines: &[&str],
    shown: Shown,
    rows: &[Row],
    settings: &Settings<'_>,
) -> Result<Layout, AllocError> {
    let marks = marks_of(alloc, lines, rows, settings.sizes)?;
    let summary = summary_of(lines, shown, &marks);
    let mut pen = Pen::new(alloc);
    let strip = draw_title(&mut pen, settings, &marks, &summary)?;
    let page = page_of(rows, &marks, settings.names.len(), strip);
    let head = pen.content;
    Ok(Layout { marks, head, page })
}

/// Draws all that is over the grounds of the rows.
fn draw_over(
    pen: &mut Pen,
    layout: &Layout,
    lines: &[&str],
    rows: &[Row],
    settings: &Settings<'_>,
) -> Result<(), AllocError> {
    let (marks, page) = (&layout.marks, &layout.page);
    pen.content.append(&layout.head)?;
    draw_legend(pen, page, marks.is_quiet)?;
    draw_strip(pen, page, marks)?;
    draw_lanes(pen, page, settings.names)?;
    draw_lives(pen, page, marks.lives.as_slice())?;
    draw_timers(pen, page, marks.armings.as_slice(), marks.clocks.as_slice())?;
    draw_activations(pen, page, marks.activations.as_slice())?;
    draw_gifts(pen, page, marks.gifts.as_slice())?;
    draw_curves(pen, page, marks.curves.as_slice())?;
    draw_words(pen, page, lines, rows, marks)?;
    let (stays, sizes) = (&marks.stays, settings.sizes);
    draw_managed(pen, page, stays.managed.as_slice(), sizes.managed)?;
    draw_heap(pen, page, stays.heap.as_slice(), stays.most, sizes)?;
    draw_pools(pen, page, stays.used.as_slice(), stays.linked.as_slice())
}

/// The ground and the style of a picture.
fn draw_under(pen: &mut Pen, page: &Page) -> Result<(), AllocError> {
    let mut style = String::new(pen.alloc);
    push_style(&mut style, page.lanes)?;
    let style = Element::new(pen.alloc, Tag::Style).saying(style.as_str())?;
    pen.content.hold(&style)?;
    draw_ground(pen, page)
}

/// The element that a picture is, with nothing inside.
fn frame_of(alloc: Global, page: &Page) -> Result<Element, AllocError>
    ensures tag { IfOk result (λ frame. frame.tag ≡ Tag.Svg) }
    ensures inside { IfOk result (λ frame. frame.inside ≡ []) }
{
    let (width, height) = (page.width(), page.height());
    let view = format!(in alloc; "0 0 {width} {height}")?;
    Element::new(alloc, Tag::Svg)
        .with(Attribute::Namespace, "http://www.w3.org/2000/svg")?
        .with_number(Attribute::Width, width)?
        .with_number(Attribute::Height, height)?
        .with(Attribute::ViewBox, view.as_str())?
        .with(Attribute::Space, "preserve")
}

/// The text of a picture: what is under the rows, the rows' grounds, and what is over them.
fn document_of(
    alloc: Global,
    page: &Page,
    under: &Content,
    grounds: &Content,
    over: &Content,
) -> Result<Vec<u8>, AllocError>
    ensures document { IfOk result (λ picture. IsDocument picture.items) }
    ensures drawn { IfOk result (λ picture. IsDrawn under.now grounds.now over.now picture.items) }
{
    under.is_well_formed();
    over.is_well_formed();
    let picture = frame_of(alloc, page)?
        .around(under)?
        .around(grounds)?
        .around(over)?;
    picture.is_well_formed();
    picture.document(alloc)
}

/// The text of the picture of these rows, which have the lines that are shown.
fn draw_rows(
    alloc: Global,
    lines: &[&str],
    shown: Shown,
    rows: &[Row],
    settings: &Settings<'_>,
    layout: &Layout,
) -> Result<Vec<u8>, AllocError>
    requires cover { Cover shown.first rows.now shown.end }
    requires there { shown.end ≤ length lines.now }
    ensures document { IfOk result (λ picture. IsDocument picture.items) }
    ensures shows_rows { IfOk result (λ picture. ShowsRows (bytes_of lines.now) rows.now picture.items) }
{
    let page = &layout.page;
    let grounds = grounds_of(alloc, page, lines, rows)?;
    let mut under = Pen::new(alloc);
    draw_under(&mut under, page)?;
    let mut over = Pen::new(alloc);
    draw_over(&mut over, layout, lines, rows, settings)?;
    document_of(alloc, page, &under.content, &grounds, &over.content)
}

/// A picture: its text, and its height in units of a pixel.
#[derive(Drop)]
pub struct Picture {
    pub text: Vec<u8>,
    pub height: usize,
}

/// The picture of a run, from the lines of its transcript: a document in which each element is closed and each text is escaped, and in
/// which each line that is shown is in exactly one row, whose title has it.
pub fn draw(alloc: Global, lines: &[&str], settings: &Settings<'_>) -> Result<Picture, AllocError>
    ensures document { IfOk result (λ picture. IsDocument picture.text.items) }
    ensures titles { IfOk result
        (λ picture. IsPicture (bytes_of lines.now) settings.now.from settings.now.to settings.now.unfolded picture.text.items) }
{
    let shown = shown_of(lines, settings.from, settings.to);
    let rows = rows_of(alloc, lines, shown, settings.unfolded)?;
    let rows = rows.as_slice();
    let layout = layout_of(alloc, lines, shown, rows, settings)?;
    let text = draw_rows(alloc, lines, shown, rows, settings, &layout)?;
    let height = layout.page.height();
    Ok(Picture { text, height })
}
