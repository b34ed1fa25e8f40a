//! The chart of a run: a lane for each mote, time downwards, and an arrow from each frame that was sent to each mote that heard it.

ghost use Rattle.std.specs.Prelude.{◌≡◌, IfOk};
ghost use Rattle.pictures.specs.Svg.Markup.{IsDocument};

use crate::network::flying::{draw_flights, draw_outside};
use crate::network::frames::Frames;
use crate::network::layout::{CHARACTER, CLOCK, Layout, MOST_LANES, MOTES, ROW, ROWS_TO_HEAD};
use crate::network::names::name_of;
use crate::network::options::Wish;
use crate::network::reading::Run;
use crate::network::rows::{MOST_ROWS, Row, Rows};
use crate::network::style::STYLE;
use crate::network::words::{Words, clipped, lane_of, length_of, words_of};
use pictures::network::{Fate, Flights, Link, NetworkLine, flights_of};
use pictures::svg::markup::{Attribute, Content, Element, Tag};
use pictures::svg::page::pen::{Area, Pen, Point};
use pictures::transcript::{Line, Note};
use std::alloc::{AllocError, Global};

/// The left of the head.
const LEFT: usize = 14;

/// The highest number of a mote in a line.
fn highest_in(line: &NetworkLine<'_>) -> u64 {
    match *line {
        NetworkLine::Mote(mote, _) | NetworkLine::Unheard(mote) => mote,
        NetworkLine::Lost(from, to) | NetworkLine::Full(from, to) | NetworkLine::Missed(from, to) =>
            from.max(to),
        NetworkLine::Clock(_) | NetworkLine::Ending(_) => 0,
    }
}

/// The number of motes: the highest number in a line or a link.
fn motes_of(lines: &[NetworkLine<'_>], links: &[Link]) -> usize {
    let mut highest: u64 = 1;
    for line in lines {
        highest = highest.max(highest_in(line));
    }
    for link in links {
        highest = highest.max(link.from.max(link.to));
    }
    highest as usize
}

/// The number of flights that ended so.
fn count_of(flights: &Flights, fate: Fate) -> usize {
    let mut count: usize = 0;
    for flight in flights.flights.as_slice() {
        if flight.fate == fate {
            count = count.saturating_add(1);
        }
    }
    count
}

/// The number of frames that were sent.
fn sent_in(lines: &[NetworkLine<'_>]) -> usize {
    let mut count: usize = 0;
    for line in lines {
        if let NetworkLine::Mote(_, Line::Note(Note::Sent(_))) = *line {
            count = count.saturating_add(1);
        }
    }
    count
}

/// What a chart is drawn from.
#[derive(Drop)]
struct Chart {
    layout: Layout,
    rows: Rows,
    flights: Flights,
    frames: Frames,
    motes: usize,
}

impl Chart {
    fn of(alloc: Global, run: &Run<'_>, wish: Wish) -> Result<Self, AllocError> {
        let lines = run.lines.as_slice();
        let rows = Rows::of(alloc, lines, run.texts.as_slice(), wish)?;
        let motes = motes_of(lines, run.links.as_slice());
        Ok(Chart {
            layout: Layout::new(motes, rows.count()),
            flights: flights_of(alloc, lines, run.links.as_slice())?,
            frames: Frames::of(alloc, lines)?,
            rows,
            motes,
        })
    }

    /// The numbers of the run.
    fn tally(&self, alloc: Global, run: &Run<'_>) -> Result<String, AllocError> {
        let flights = &self.flights;
        let sent = sent_in(run.lines.as_slice());
        let mut text = format!(in alloc; "clock {}, frames sent {sent}", self.rows.clock)?;
        if run.has_script {
            write!(
                text,
                ", heard {}, missed {}, lost {}, no room {}, under way {}, from outside {}",
                count_of(flights, Fate::Heard),
                count_of(flights, Fate::Missed),
                count_of(flights, Fate::Lost),
                count_of(flights, Fate::Full),
                count_of(flights, Fate::UnderWay),
                flights.outside.len()
            )?;
        }
        Ok(text)
    }

    /// What isn't shown.
    fn omissions(&self, alloc: Global, run: &Run<'_>) -> Result<String, AllocError> {
        let mut text = String::new(alloc);
        if self.motes > MOST_LANES {
            write!(
                text,
                "motes {} to {} are left out. ",
                MOST_LANES + 1,
                self.motes
            )?;
        }
        if !run.has_script {
            text.push_str("No script: which send a frame belongs to isn't known.")?;
        }
        Ok(text)
    }
}

/// Draws what is above the rows.
fn draw_head(pen: &mut Pen, chart: &Chart, run: &Run<'_>) -> Result<(), AllocError> {
    let title = format!(in pen.alloc; "a network of {}", chart.motes)?;
    pen.text(
        "h",
        Point {
            left: LEFT,
            top: 22,
        },
        title.as_str(),
    )?;
    let tally = chart.tally(pen.alloc, run)?;
    pen.text(
        "g",
        Point {
            left: LEFT,
            top: 38,
        },
        tally.as_str(),
    )?;
    let omissions = chart.omissions(pen.alloc, run)?;
    pen.text(
        "r",
        Point {
            left: LEFT,
            top: 52,
        },
        omissions.as_str(),
    )
}

/// Draws the numbers of all motes at their lanes.
fn draw_numbers(pen: &mut Pen, layout: &Layout, top: usize) -> Result<(), AllocError> {
    for before in 0..layout.lanes {
        let mote = (before as u64).saturating_add(1);
        let left = layout.left_of(mote);
        let number = format!(in pen.alloc; "{mote}")?;
        pen.text("b c", Point { left, top }, number.as_str())?;
    }
    Ok(())
}

/// Draws what the motes run, below their numbers.
fn draw_names(pen: &mut Pen, layout: &Layout, run: &Run<'_>) -> Result<(), AllocError> {
    let top = layout.top_of(0).saturating_sub(8);
    for before in 0..layout.lanes {
        let mote = (before as u64).saturating_add(1);
        let left = layout.left_of(mote);
        let name = name_of(run.names.as_slice(), mote);
        let name = clipped(pen.alloc, name, layout.characters().saturating_sub(1))?;
        pen.text("g c", Point { left, top }, name.as_str())?;
    }
    Ok(())
}

/// Draws the lanes, with a line of numbers above the first row and before each fiftieth one.
fn draw_lanes(pen: &mut Pen, layout: &Layout, run: &Run<'_>) -> Result<(), AllocError> {
    let (first, bottom) = (layout.top_of(0), layout.top_of(layout.rows));
    for before in 0..layout.lanes {
        let left = layout.left_of((before as u64).saturating_add(1));
        let commands = format!(in pen.alloc; "M{left},{first}V{bottom}")?;
        pen.line("d", commands.as_str(), "")?;
    }
    let top = first.saturating_sub(21);
    pen.text("g e", Point { left: CLOCK, top }, "clock")?;
    pen.text("g e", Point { left: MOTES, top }, "mote")?;
    draw_numbers(pen, layout, top)?;
    draw_names(pen, layout, run)?;
    for head in 1..=layout.rows / ROWS_TO_HEAD {
        draw_head_again(pen, layout, head.saturating_mul(ROWS_TO_HEAD))?;
    }
    Ok(())
}

/// Draws the line of numbers before a row.
fn draw_head_again(pen: &mut Pen, layout: &Layout, row: usize) -> Result<(), AllocError> {
    let below = layout.top_of(row);
    let area = Area {
        corner: Point {
            left: LEFT,
            top: below.saturating_sub(ROW),
        },
        width: layout.width().saturating_sub(2 * LEFT),
        height: ROW,
    };
    pen.area("m", area, "")?;
    draw_numbers(pen, layout, below.saturating_sub(5))
}

/// Draws the clock before the first row of a moment.
fn draw_clock(pen: &mut Pen, layout: &Layout, at: usize, clock: u64) -> Result<(), AllocError> {
    let top = layout.top_of(at);
    let commands = format!(in pen.alloc; "M{LEFT},{top}H{}", layout.width())?;
    pen.line("k", commands.as_str(), "")?;
    let text = format!(in pen.alloc; "{clock}")?;
    let point = Point {
        left: CLOCK,
        top: layout.words_of(at),
    };
    pen.text("e", point, text.as_str())
}

/// Draws the area of a line in its row, with the whole line as its title.
fn draw_area(
    pen: &mut Pen,
    layout: &Layout,
    at: usize,
    line: &NetworkLine<'_>,
    text: &str,
) -> Result<(), AllocError> {
    let left = layout.left_of(lane_of(line));
    let area = Area {
        corner: Point {
            left: left.saturating_sub(3),
            top: layout.top_of(at),
        },
        width: layout.lane.saturating_sub(8),
        height: ROW,
    };
    pen.area("t", area, text)
}

/// Draws words where the row has room for them: after the lane of their mote, or before it if there is more room.
fn draw_words(pen: &mut Pen, layout: &Layout, at: usize, words: &Words) -> Result<(), AllocError> {
    let lane = layout.left_of(words.mote.unwrap_or(1));
    let after = lane.saturating_add(if words.has_cross { 18 } else { 14 });
    let before = lane.saturating_sub(14);
    let (room, other) = (
        layout.characters_after(after),
        layout.characters_before(before),
    );
    let is_before = room < length_of(words.text.as_str()) && room < other;
    let short = clipped(
        pen.alloc,
        words.text.as_str(),
        if is_before { other } else { room },
    )?;
    let width = length_of(short.as_str()).saturating_mul(CHARACTER);
    let left = if is_before { before } else { after };
    let area = Area {
        corner: Point {
            left: if is_before {
                before.saturating_sub(width)
            } else {
                after.saturating_sub(1)
            },
            top: layout.top_of(at).saturating_add(2),
        },
        width,
        height: ROW - 4,
    };
    let class = match (words.is_red, is_before) {
        (false, false) => "n",
        (false, true) => "n e",
        (true, false) => "r",
        (true, true) => "r e",
    };
    pen.area("v", area, "")?;
    let point = Point {
        left,
        top: layout.words_of(at),
    };
    pen.text(class, point, short.as_str())
}

/// Draws of which mote a row is, or of how many.
fn draw_motes(
    pen: &mut Pen,
    layout: &Layout,
    at: usize,
    row: Row,
    mote: Option<u64>,
) -> Result<(), AllocError> {
    let point = Point {
        left: MOTES,
        top: layout.words_of(at),
    };
    let text = match mote {
        Some(mote) if row.lines < 2 => format!(in pen.alloc; "{mote}")?,
        Some(_) => format!(in pen.alloc; "{} motes", row.lines)?,
        None => String::new(pen.alloc),
    };
    pen.text("g e", point, text.as_str())
}

/// Draws that a mote does something: the end of the run is of none.
fn draw_dot(
    pen: &mut Pen,
    layout: &Layout,
    at: usize,
    line: &NetworkLine<'_>,
) -> Result<(), AllocError> {
    if matches!(*line, NetworkLine::Clock(_) | NetworkLine::Ending(_)) {
        return Ok(());
    }
    let area = Area {
        corner: Point {
            left: layout.left_of(lane_of(line)).saturating_sub(2),
            top: layout.middle_of(at).saturating_sub(2),
        },
        width: 5,
        height: 5,
    };
    pen.area("s", area, "")
}

/// Draws the clock before a row, where it has changed, or where rows are left out.
fn draw_moment(
    pen: &mut Pen,
    chart: &Chart,
    at: usize,
    clock: u64,
    before: Option<u64>,
) -> Result<(), AllocError> {
    let is_after_fold = chart.rows.folded > 0 && at == MOST_ROWS / 2 + 1;
    if before != Some(clock) || is_after_fold {
        draw_clock(pen, &chart.layout, at, clock)?;
    }
    Ok(())
}

/// Draws the areas of all lines that aren't left out.
fn draw_areas(pen: &mut Pen, chart: &Chart, run: &Run<'_>) -> Result<(), AllocError> {
    let (lines, texts) = (run.lines.as_slice(), run.texts.as_slice());
    for shown in chart.rows.shown.as_slice() {
        let found = (
            chart.rows.shown_at(shown.row),
            lines.get(shown.line),
            texts.get(shown.line),
        );
        if let (Some(at), Some(line), Some(text)) = found {
            draw_area(pen, &chart.layout, at, line, text)?;
        }
    }
    Ok(())
}

/// Draws the words of all rows that aren't left out.
fn draw_rows(pen: &mut Pen, chart: &Chart, run: &Run<'_>) -> Result<(), AllocError> {
    let lines = run.lines.as_slice();
    for (number, row) in chart.rows.rows.iter().enumerate() {
        if let (Some(at), Some(line)) = (chart.rows.shown_at(number), lines.get(row.line)) {
            let words = words_of(pen.alloc, line, &chart.frames)?;
            draw_motes(pen, &chart.layout, at, *row, words.mote)?;
            draw_words(pen, &chart.layout, at, &words)?;
        }
    }
    Ok(())
}

/// Draws the dots of all lines that aren't left out, above the words, which may be long.
fn draw_dots(pen: &mut Pen, chart: &Chart, run: &Run<'_>) -> Result<(), AllocError> {
    let (lines, layout) = (run.lines.as_slice(), &chart.layout);
    for shown in chart.rows.shown.as_slice() {
        if let (Some(at), Some(line)) = (chart.rows.shown_at(shown.row), lines.get(shown.line)) {
            draw_dot(pen, layout, at, line)?;
        }
    }
    Ok(())
}

/// Draws the moments at which rows are.
fn draw_moments(pen: &mut Pen, chart: &Chart) -> Result<(), AllocError> {
    let mut before = None;
    for (number, row) in chart.rows.rows.iter().enumerate() {
        if let Some(at) = chart.rows.shown_at(number) {
            draw_moment(pen, chart, at, row.clock, before)?;
        }
        before = Some(row.clock);
    }
    Ok(())
}

/// Says which rows are left out.
fn draw_fold(pen: &mut Pen, chart: &Chart) -> Result<(), AllocError> {
    if chart.rows.folded == 0 {
        return Ok(());
    }
    let layout = &chart.layout;
    let top = layout.top_of(MOST_ROWS / 2);
    let area = Area {
        corner: Point { left: LEFT, top },
        width: layout.width().saturating_sub(2 * LEFT),
        height: ROW,
    };
    pen.area("u", area, "")?;
    let words = format!(in pen.alloc;
        "{} rows are left out: --from and --to show them",
        chart.rows.folded
    )?;
    let point = Point {
        left: MOTES + 32,
        top: layout.words_of(MOST_ROWS / 2),
    };
    pen.text("b", point, words.as_str())
}

/// The ground and the style of a chart.
fn draw_ground(pen: &mut Pen, layout: &Layout) -> Result<(), AllocError> {
    pen.content
        .hold(&Element::new(pen.alloc, Tag::Style).saying(STYLE)?)?;
    let area = Area {
        corner: Point { left: 0, top: 0 },
        width: layout.width(),
        height: layout.height(),
    };
    pen.area("w", area, "")
}

/// Draws the frames on their way.
fn draw_frames(pen: &mut Pen, chart: &Chart, run: &Run<'_>) -> Result<(), AllocError> {
    let (layout, rows, flights) = (&chart.layout, &chart.rows, &chart.flights);
    let lines = run.lines.as_slice();
    let title = if run.has_script {
        "from outside"
    } else {
        "a frame arrives"
    };
    let found = flights.flights.as_slice();
    draw_flights(pen, layout, rows, found, lines, &chart.frames)?;
    draw_outside(pen, layout, rows, lines, flights.outside.as_slice(), title)
}

/// All that a chart shows.
fn drawn(alloc: Global, chart: &Chart, run: &Run<'_>) -> Result<Content, AllocError> {
    let mut pen = Pen::new(alloc);
    draw_ground(&mut pen, &chart.layout)?;
    draw_head(&mut pen, chart, run)?;
    draw_lanes(&mut pen, &chart.layout, run)?;
    draw_moments(&mut pen, chart)?;
    draw_areas(&mut pen, chart, run)?;
    draw_frames(&mut pen, chart, run)?;
    draw_rows(&mut pen, chart, run)?;
    draw_dots(&mut pen, chart, run)?;
    draw_fold(&mut pen, chart)?;
    Ok(pen.content)
}

/// The chart of a run: a document in which each element is closed and each text is escaped.
pub(crate) fn chart_of(alloc: Global, run: &Run<'_>, wish: Wish) -> Result<Vec<u8>, AllocError>
    ensures { IfOk result (λ picture. IsDocument picture.items) }
{
    let chart = Chart::of(alloc, run, wish)?;
    let content = drawn(alloc, &chart, run)?;
    let (width, height) = (chart.layout.width(), chart.layout.height());
    let view = format!(in alloc; "0 0 {width} {height}")?;
    Element::new(alloc, Tag::Svg)
        .with(Attribute::Namespace, "http://www.w3.org/2000/svg")?
        .with_number(Attribute::Width, width)?
        .with_number(Attribute::Height, height)?
        .with(Attribute::ViewBox, view.as_str())?
        .with(Attribute::Space, "preserve")?
        .around(&content)?
        .document(alloc)
}
