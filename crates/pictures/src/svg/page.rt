//! Where the parts of a picture are.

ghost use Rattle.std.specs.Prelude.{◌≡◌, ◌+◌, if◌then◌else◌};
ghost use Rattle.pictures.specs.Svg.Positions as spec;
ghost use Rattle.pictures.specs.Svg.Positions.{capped, lane_width};

mod ground;
pub mod memory_columns;
pub mod pen;
pub mod pool_columns;

use crate::memory::Stay;
use pen::Point;

/// The height of a row.
pub const ROW: usize = 17;

/// Where the clock's numbers end.
pub const CLOCK: usize = 84;

/// Where the lanes begin.
const LANES: usize = 126;

/// The width for what rows say in words.
const WORDS: usize = 420;

/// The least width of a picture.
const LEAST_WIDTH: usize = 760;

/// The width of the column of managed memory.
const MANAGED: usize = 180;

/// The width of the heap's map.
const HEAP: usize = 340;

/// The width of a pool's column.
pub const POOL: usize = 80;

/// The room between two columns.
const BETWEEN: usize = 24;

/// The widths of the columns of memory after the words, each 0 where there is nothing to show.
#[derive(Clone, Copy, Drop)]
pub struct Columns {
    pub managed: usize,
    pub heap: usize,
    /// How many pools have a column.
    pub pools: usize,
}

impl Columns {
    /// The columns for a run: whether managed memory and the heap are used, and the number of pools.
    pub fn new(is_managed: bool, is_heap: bool, pools: usize) -> Self
        ensures managed { result.managed ≡ (if is_managed then 180 else 0) }
        ensures heap { result.heap ≡ (if is_heap then 340 else 0) }
        ensures pools { result.pools ≡ pools }
    {
        Columns {
            managed: if is_managed { MANAGED } else { 0 },
            heap: if is_heap { HEAP } else { 0 },
            pools,
        }
    }
}

/// The end of a column that begins there, with the gap after it.
fn after_column(left: usize, width: usize) -> usize
    ensures { result ≡ spec.after_column left width }
{
    if width == 0 {
        left
    } else {
        left.saturating_add(width).saturating_add(BETWEEN)
    }
}

/// The positions of the parts of a picture.
#[derive(Clone, Copy, Drop)]
pub struct Page {
    /// How many processes have a lane: 4, 5, ..
    pub lanes: usize,
    pub rows: usize,
    /// Where the overview begins.
    pub strip: usize,
    /// Where the first row begins.
    pub top: usize,
    /// The width of a lane.
    pub lane: usize,
    pub columns: Columns,
}

impl Page {
    /// The positions for a number of lanes and rows, where the overview begins there and has that height.
    pub fn new(lanes: usize, rows: usize, strip: usize, height: usize, columns: Columns) -> Self
        ensures parts { (result.lanes ≡ lanes) × (result.rows ≡ rows) × (result.strip ≡ strip) × (result.columns ≡ columns) }
        ensures top { result.top ≡ capped (strip + height) }
        ensures lane { result.lane ≡ lane_width lanes }
    {
        let lane = match lanes {
            0..=5 => 64,
            6..=9 => 44,
            _ => 30,
        };
        Page {
            lanes,
            rows,
            strip,
            top: strip.saturating_add(height),
            lane,
            columns,
        }
    }

    /// Where a row begins.
    pub fn top_of(&self, row: usize) -> usize
        ensures { result ≡ spec.row_top self.now row }
    {
        row.saturating_mul(ROW).saturating_add(self.top)
    }

    /// Where the words of a row are.
    pub fn base_of(&self, row: usize) -> usize
        ensures { result ≡ spec.row_base self.now row }
    {
        self.top_of(row).saturating_add(12)
    }

    /// Where the rows end.
    pub fn bottom(&self) -> usize
        ensures { result ≡ spec.bottom self.now }
    {
        self.top_of(self.rows)
    }

    /// Where what stays somewhere begins and ends, from the middle of its first row on.
    pub(crate) fn span_of(&self, stay: &Stay) -> (usize, usize)
        ensures from { result.0 ≡ spec.row_middle self.now stay.now.first }
        ensures to { result.1 ≡ spec.end_of self.now stay.now.last }
    {
        let end = match stay.last {
            Some(row) => self.top_of(row).saturating_add(ROW / 2),
            None => self.bottom(),
        };
        (self.top_of(stay.first).saturating_add(ROW / 2), end)
    }

    /// The middle of a process's lane.
    pub fn lane_of(&self, pid: usize) -> usize
        ensures { result ≡ spec.lane_middle self.now pid }
    {
        let number = pid.saturating_sub(4);
        number
            .saturating_mul(self.lane)
            .saturating_add(self.lane / 2)
            .saturating_add(LANES)
    }

    /// Where the words of the rows begin.
    pub fn words(&self) -> usize
        ensures { result ≡ spec.words_left self.now }
    {
        self.lanes
            .saturating_mul(self.lane)
            .saturating_add(LANES + 14)
    }

    /// Where the words of the rows end.
    pub fn words_end(&self) -> usize
        ensures { result ≡ spec.words_end self.now }
    {
        self.words().saturating_add(WORDS)
    }

    /// Where the column of managed memory begins.
    pub fn managed_left(&self) -> usize
        ensures { result ≡ spec.managed_left self.now }
    {
        self.words_end().saturating_add(10)
    }

    /// Where the heap's map begins.
    pub fn heap_left(&self) -> usize
        ensures { result ≡ spec.heap_left self.now }
    {
        after_column(self.managed_left(), self.columns.managed)
    }

    /// Where the column of a pool begins, by the number of pools before it.
    pub fn pool_left(&self, others: usize) -> usize
        ensures { result ≡ spec.pool_left self.now others }
    {
        after_column(self.heap_left(), self.columns.heap).saturating_add(others.saturating_mul(
            POOL + BETWEEN,
        ))
    }

    pub fn width(&self) -> usize
        ensures { result ≡ spec.width_of self.now }
    {
        self.pool_left(self.columns.pools)
            .saturating_add(10)
            .max(LEAST_WIDTH)
    }

    pub fn height(&self) -> usize
        ensures { result ≡ spec.height_of self.now }
    {
        self.bottom().saturating_add(30)
    }

    /// The position of a row's words, by their distance from the left of all words.
    pub fn words_of(&self, row: usize, indent: usize) -> Point
        ensures left { result.left ≡ capped (spec.words_left self.now + indent) }
        ensures top { result.top ≡ spec.row_base self.now row }
    {
        Point {
            left: self.words().saturating_add(indent),
            top: self.base_of(row),
        }
    }
}
