//! Where the parts of a chart are, in units of a pixel.

/// The height of a row.
pub(crate) const ROW: usize = 16;

/// The right end of the clocks.
pub(crate) const CLOCK: usize = 54;

/// The right end of the column that says of which mote a row is.
pub(crate) const MOTES: usize = 108;

/// The line of mote 1.
const FIRST_LANE: usize = 132;

/// The top of the first row.
const TOP: usize = 94;

/// The number of rows between two lines with the motes' numbers.
pub(crate) const ROWS_TO_HEAD: usize = 50;

/// The most lanes that a chart has.
pub(crate) const MOST_LANES: usize = 64;

/// The width of a character.
pub(crate) const CHARACTER: usize = 6;

/// Where lanes and rows are.
#[derive(Clone, Copy, Drop)]
pub(crate) struct Layout {
    /// The number of lanes: of motes 1, 2, ..
    pub(crate) lanes: usize,
    pub(crate) rows: usize,
    /// The width of a lane.
    pub(crate) lane: usize,
}

impl Layout {
    /// A chart of a number of motes, at least one, and rows.
    pub(crate) fn new(motes: usize, rows: usize) -> Self {
        let lanes = motes.min(MOST_LANES);
        let lane = match lanes {
            0..=4 => 200,
            5..=8 => 140,
            9..=16 => 90,
            _ => 56,
        };
        Layout { lanes, rows, lane }
    }

    /// Where the line of a mote is.
    pub(crate) fn left_of(&self, mote: u64) -> usize {
        let before = (mote as usize).saturating_sub(1);
        before.saturating_mul(self.lane).saturating_add(FIRST_LANE)
    }

    /// Whether a mote has a lane.
    pub(crate) fn has_lane(&self, mote: u64) -> bool {
        mote as usize <= self.lanes
    }

    /// The top of a row. Before each fiftieth one is a line with the motes' numbers.
    pub(crate) fn top_of(&self, row: usize) -> usize {
        row.saturating_add(row / ROWS_TO_HEAD)
            .saturating_mul(ROW)
            .saturating_add(TOP)
    }

    /// The middle of a row.
    pub(crate) fn middle_of(&self, row: usize) -> usize {
        self.top_of(row).saturating_add(ROW / 2)
    }

    /// Below the words of a row, where a frame that was sent begins its way.
    pub(crate) fn foot_of(&self, row: usize) -> usize {
        self.top_of(row).saturating_add(ROW - 2)
    }

    /// The line on which the words of a row are.
    pub(crate) fn words_of(&self, row: usize) -> usize {
        self.top_of(row).saturating_add(ROW - 5)
    }

    pub(crate) fn width(&self) -> usize {
        self.left_of(self.lanes.saturating_add(1) as u64).max(560)
    }

    pub(crate) fn height(&self) -> usize {
        self.top_of(self.rows).saturating_add(20)
    }

    /// The number of characters that a lane has room for.
    pub(crate) fn characters(&self) -> usize {
        self.lane.saturating_sub(4) / CHARACTER
    }

    /// The number of characters from here to the right end of the chart.
    pub(crate) fn characters_after(&self, left: usize) -> usize {
        self.width().saturating_sub(left).saturating_sub(8) / CHARACTER
    }

    /// The number of characters from the left end of the lanes to here.
    pub(crate) fn characters_before(&self, right: usize) -> usize {
        right.saturating_sub(MOTES + 8) / CHARACTER
    }
}
