//! Blocks at their positions.

ghost use Rattle.std.specs.Prelude.{◌≡◌, All};
ghost use Rattle.pictures.specs.Spans.{StayEndsLater};

use crate::spans::{Span, Spans, ends_later};
use std::alloc::Global;

/// A block at its position, from a row on.
#[derive(Clone, Copy)]
pub struct Stay {
    /// The process that it belongs to.
    pub pid: usize,
    /// The number that it is named by.
    pub name: u64,
    /// Where it begins, in bytes.
    pub at: u64,
    /// The number of bytes that it takes.
    pub taken: u64,
    /// The number of bytes that were asked for.
    pub size: u64,
    pub first: usize,
    /// The row where it goes, or moves. `None` where that never happens.
    pub last: Option<usize>,
}

impl Span for Stay {
    ghost use Rattle.pictures.specs.Spans.{StayEndsLater};

    ghost leads_on = { StayEndsLater };

    fn ends_later(&self) -> bool {
        ends_later(self.first, self.last)
    }
}

/// What a block is found by.
#[derive(Clone, Copy)]
pub(crate) enum Sought {
    /// Its process, and its name there.
    Named(usize, u64),
    /// Its process alone.
    Of(usize),
    /// Its position.
    At(u64),
}

impl Sought {
    fn is(self, stay: &Stay) -> bool {
        match self {
            Sought::Named(pid, name) => stay.pid == pid && stay.name == name,
            Sought::Of(pid) => stay.pid == pid,
            Sought::At(at) => stay.at == at,
        }
    }
}

/// The blocks that have a position, and the stays that have ended.
#[derive(Drop)]
pub(crate) struct Record {
    live: Vec<Stay>,
    ended: Spans<Stay>,
    /// Whether there was memory for all that have a position so far.
    is_whole: bool,
}

impl Record {
    pub(crate) fn new(alloc: Global) -> Self {
        Record {
            live: Vec::new(alloc),
            ended: Spans::new(alloc),
            is_whole: true,
        }
    }

    /// The blocks that have a position.
    pub(crate) fn live(&self) -> &[Stay]
        ensures { result.now ≡ self.now.live.items }
    {
        self.live.as_slice()
    }

    /// The index of the first such block in the list of those that have a position.
    pub(crate) fn find(&self, sought: Sought) -> Option<usize> {
        for index in 0..self.live.len() {
            if sought.is(&self.live[index]) {
                return Some(index);
            }
        }
        None
    }

    /// A block's stay begins.
    pub(crate) fn begin(&mut self, stay: Stay) {
        self.is_whole &= self.live.push(stay).is_ok();
    }

    /// The stay of such a block ends in a row, if there is one. The order of the others may change.
    pub(crate) fn end(&mut self, sought: Sought, row: usize) {
        match self.find(sought) {
            Some(index) if index < self.live.len() => {
                let stay = self.live.swap_remove(index);
                self.keep(stay, row);
            }
            _ => {}
        }
    }

    /// The block at index `index` of the list goes in a row, and the others keep their order.
    pub(crate) fn take_away(&mut self, index: usize, row: usize) {
        if index < self.live.len() {
            let stay = self.live.remove(index);
            self.keep(stay, row);
        }
    }

    /// The block at index `index` of the list moves down by `bytes` bytes in a row.
    pub(crate) fn move_down(&mut self, index: usize, bytes: u64, row: usize) {
        if let Some(stay) = self.live.as_mut_slice().get_mut(index) {
            let before = *stay;
            stay.at = before.at.saturating_sub(bytes);
            stay.first = row;
            self.keep(before, row);
        }
    }

    /// A stay has ended in a row.
    fn keep(&mut self, stay: Stay, row: usize) {
        let last = Some(row);
        self.ended.end(Stay { last, ..stay });
    }

    /// What has ended so far is forgotten, and what has not ended begins in the first row.
    pub(crate) fn forget_rows(&mut self) {
        self.ended.forget();
        for stay in self.live.as_mut_slice() {
            stay.first = 0;
        }
    }

    /// What has not ended stays so to the end. Returns whether there was memory for all.
    pub(crate) fn close(&mut self) -> bool {
        for index in 0..self.live.len() {
            self.keep_open(index);
        }
        self.is_whole & self.ended.is_whole()
    }

    /// The same for the block at that index in the list.
    fn keep_open(&mut self, index: usize) {
        if let Some(stay) = self.live.get(index) {
            let open = Stay {
                last: None,
                ..*stay
            };
            self.ended.end(open);
        }
    }

    /// The stays that ended, and those that `close` found.
    pub(crate) fn finish(self) -> Vec<Stay>
        ensures { All StayEndsLater result.items }
    {
        self.ended.finish()
    }
}
