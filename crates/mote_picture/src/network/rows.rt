//! The rows of a chart: which lines of a transcript have one, and the part of a long run that is left out.

use crate::network::layout::MOST_LANES;
use crate::network::options::Wish;
use crate::network::words::lane_of;
use pictures::network::NetworkLine;
use pictures::transcript::{Input, Line, Origin, Turn};
use std::alloc::{AllocError, Global};

/// The most rows that a chart has. Of a longer run the first half and the last half of these are shown.
pub(crate) const MOST_ROWS: usize = 1_000;

/// The number of rows among which a line looks for one that it can share: so the work grows with the run alone.
const MOST_COMPARED: usize = 64;

/// A row: lines of one moment that say the same of different motes.
#[derive(Clone, Copy, Drop)]
pub(crate) struct Row {
    pub(crate) clock: u64,
    /// Its first line, by its position in the transcript from 0. The words of the row are beside the lane of its mote.
    pub(crate) line: usize,
    /// The number of its lines.
    pub(crate) lines: usize,
}

/// A line that has a row, and the number of the row among all.
#[derive(Clone, Copy, Drop)]
pub(crate) struct Shown {
    pub(crate) line: usize,
    pub(crate) row: usize,
}

/// The rows of a chart, and where each line of the transcript is.
#[derive(Drop)]
pub(crate) struct Rows {
    pub(crate) rows: Vec<Row>,
    pub(crate) shown: Vec<Shown>,
    /// For each line the number of the shown lines before it.
    before: Vec<usize>,
    /// The number of rows in the middle that are left out.
    pub(crate) folded: usize,
    /// The clock at the end.
    pub(crate) clock: u64,
}

/// A turn has a row where an activation begins, and where it prints.
fn is_turn_shown(turn: &Turn<'_>) -> bool {
    turn.origin != Origin::Answer || turn.call.starts_with("print ")
}

/// Whether a mote's line has a row: what a frame did to its sender, the note says.
fn is_line_shown(line: &Line<'_>) -> bool {
    match *line {
        Line::Input(Input::Tick(_)) => false,
        Line::Turn(turn) => is_turn_shown(&turn),
        Line::Input(_) | Line::Note(_) | Line::Ending(_) => true,
    }
}

/// Whether a line has a row: the clock is beside the rows, and what has no lane isn't shown.
fn is_shown(line: &NetworkLine<'_>) -> bool {
    if lane_of(line) > MOST_LANES as u64 {
        return false;
    }
    match *line {
        NetworkLine::Clock(_) => false,
        NetworkLine::Mote(_, line) => is_line_shown(&line),
        _ => true,
    }
}

/// What a line says after the number of its mote; empty where it shares no row.
fn shared_words<'a>(line: &NetworkLine<'a>, text: &'a str) -> &'a str {
    match *line {
        NetworkLine::Mote(_, _) => match text.split_once(' ') {
            Some((_, words)) => words,
            None => "",
        },
        _ => "",
    }
}

/// The rows so far.
#[derive(Drop)]
struct RowList<'a> {
    rows: Vec<Row>,
    /// For each row what a line must say to share it.
    words: Vec<&'a str>,
    /// The first row of the present moment.
    moment: usize,
    /// For each mote the first row that its next line may have: its lines stay in their order.
    free: [usize; MOST_LANES + 1],
}

impl<'a> RowList<'a> {
    fn new(alloc: Global) -> Self {
        RowList {
            rows: Vec::new(alloc),
            words: Vec::new(alloc),
            moment: 0,
            free: [0; MOST_LANES + 1],
        }
    }

    /// A row of the present moment that says the same of other motes, after the last row of this one.
    fn row_to_share(&self, mote: u64, words: &str) -> Option<usize> {
        if words.is_empty() {
            return None;
        }
        let free = self.free.get(mote as usize).copied().unwrap_or(0);
        let count = self.words.len();
        let begin = self
            .moment
            .max(free)
            .max(count.saturating_sub(MOST_COMPARED));
        for row in begin..count {
            if self.words[row] == words {
                return Some(row);
            }
        }
        None
    }

    /// Puts a line into a row that is there, or into a new one. Returns the number of that row.
    fn take(&mut self, mote: u64, words: &'a str, row: Row) -> Result<usize, AllocError> {
        let number = match self.row_to_share(mote, words) {
            Some(number) => number,
            None => {
                self.rows.push(row)?;
                self.words.push(words)?;
                self.rows.len().saturating_sub(1)
            }
        };
        if let Some(shared) = self.rows.as_mut_slice().get_mut(number) {
            shared.lines = shared.lines.saturating_add(1);
        }
        if let Some(free) = self.free.get_mut(mote as usize) {
            *free = number.saturating_add(1);
        }
        Ok(number)
    }
}

impl Rows {
    /// The rows of a run between two clocks.
    pub(crate) fn of<'a>(
        alloc: Global,
        lines: &[NetworkLine<'a>],
        texts: &[&'a str],
        wish: Wish,
    ) -> Result<Self, AllocError> {
        let mut list = RowList::new(alloc);
        let mut shown = Vec::new(alloc);
        let mut before = Vec::new(alloc);
        let mut clock: u64 = 0;
        for (at, (line, text)) in lines.iter().zip(texts.iter()).enumerate() {
            if let NetworkLine::Clock(moment) = *line {
                clock = moment;
                list.moment = list.rows.len();
            }
            before.push(shown.len())?;
            if is_shown(line) && wish.from <= clock && clock <= wish.to {
                let row = Row {
                    clock,
                    line: at,
                    lines: 0,
                };
                let row = list.take(lane_of(line), shared_words(line, text), row)?;
                shown.push(Shown { line: at, row })?;
            }
        }
        let folded = list.rows.len().saturating_sub(MOST_ROWS);
        Ok(Rows {
            rows: list.rows,
            shown,
            before,
            folded,
            clock,
        })
    }

    /// The number of rows of the picture, with one for what is left out.
    pub(crate) fn count(&self) -> usize {
        if self.folded == 0 {
            self.rows.len()
        } else {
            MOST_ROWS + 1
        }
    }

    /// Where a row is in the picture, by its number among all; `None` where it is left out.
    pub(crate) fn shown_at(&self, row: usize) -> Option<usize> {
        if self.folded == 0 || row < MOST_ROWS / 2 {
            return Some(row);
        }
        let later = row.checked_sub(self.folded)?;
        if later < MOST_ROWS / 2 {
            return None;
        }
        later.checked_add(1)
    }

    /// The row of a line in the picture, or the nearest one; and whether the line is in that row.
    pub(crate) fn row_of(&self, line: usize) -> (usize, bool) {
        let before = self.before.as_slice().get(line).copied();
        let next = match before {
            Some(before) => self.shown.as_slice().get(before).copied(),
            None => None,
        };
        let Some(shown) = next else {
            return (self.count(), false);
        };
        match self.shown_at(shown.row) {
            Some(at) => (at, shown.line == line),
            None => (MOST_ROWS / 2, false),
        }
    }
}
