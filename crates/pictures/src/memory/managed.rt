//! Managed memory: lengths one after the other. No call shows where the blocks are in the region, so those after a freed one are
//! shown as closing up at once.

use crate::memory::RepliedCall;
use crate::memory::stay::{Record, Sought, Stay};
use crate::numbers::{Asked, number_in_reply, number_of};
use std::alloc::Global;

/// The process whose blocks hold frames.
pub const FRAMES: usize = 3;

/// The blocks of managed memory.
#[derive(Drop)]
pub(crate) struct Managed {
    pub(crate) record: Record,
    /// The number of frames that were held.
    frames: u64,
    size: u32,
    quota: Option<u32>,
    /// The line of the first call or frame whose outcome differs where memory has that size and that quota.
    pub(crate) differs: Option<usize>,
}

/// What a length takes: it is rounded up to a multiple of 4.
fn taken_by(size: u64) -> u64 {
    let rest = size % 4;
    if rest == 0 {
        size
    } else {
        size.saturating_add(4 - rest)
    }
}

impl Managed {
    pub(crate) fn new(alloc: Global, size: u32, quota: Option<u32>) -> Self {
        Managed {
            record: Record::new(alloc),
            frames: 0,
            size,
            quota,
            differs: None,
        }
    }

    /// Whether a block of that length has room, of a process or of the frames.
    fn has_room(&self, pid: usize, size: u64) -> bool {
        taken_by(size) <= self.free_for(pid)
    }

    /// The number of bytes that are free for a process.
    fn free_for(&self, pid: usize) -> u64 {
        let mut taken: u64 = 0;
        for stay in self.record.live() {
            if stay.pid == pid || self.quota.is_none() {
                taken = taken.saturating_add(stay.taken);
            }
        }
        let size = self.quota.unwrap_or(self.size) as u64;
        size.saturating_sub(taken)
    }

    /// Whether a block of that length is refused with that number.
    fn may_refuse(&self, pid: usize, size: u64, number: u64) -> bool {
        match number {
            12 => self.quota.is_none() && !self.has_room(pid, size),
            18 => self.quota.is_some() && !self.has_room(pid, size),
            _ => true,
        }
    }

    /// Stores the first line that says what isn't so.
    fn compare(&mut self, is_so: bool, line: usize) {
        if !is_so {
            self.differs = self.differs.or(Some(line));
        }
    }

    /// A call was accepted.
    pub(crate) fn carry_out(&mut self, called: &RepliedCall<'_>, asked: &Asked<'_>) {
        let RepliedCall { pid, row, line, .. } = *called;
        match asked.name {
            "mmem-alloc" => {
                self.compare(self.has_room(pid, asked.second), line);
                self.add(pid, asked.first, asked.second, row);
            }
            "mmem-free" => self.free(Sought::Named(pid, asked.first), row),
            "mmem-avail" => {
                let free = number_in_reply(called.reply);
                self.compare(free == self.free_for(pid), line);
            }
            // The front frame is released.
            "packet-done" => self.free(Sought::Of(FRAMES), row),
            _ => {}
        }
    }

    /// A call was refused.
    pub(crate) fn refuse(&mut self, called: &RepliedCall<'_>, asked: &Asked<'_>) {
        if asked.name == "mmem-alloc" {
            let number = number_of(called.reply.strip_prefix("refused "));
            let is_so = self.may_refuse(called.pid, asked.second, number);
            self.compare(is_so, called.line);
        }
    }

    /// A process has one more block, after all others.
    fn add(&mut self, pid: usize, name: u64, size: u64, row: usize) {
        let at = match self.record.live().last() {
            Some(stay) => stay.at.saturating_add(stay.taken),
            None => 0,
        };
        self.record.begin(Stay {
            pid,
            name,
            at,
            taken: taken_by(size),
            size,
            first: row,
            last: None,
        });
    }

    /// The first such block goes in a row, if there is one, and those after it move down.
    fn free(&mut self, sought: Sought, row: usize) {
        let Some(gone) = self.record.find(sought) else {
            return;
        };
        let Some(stay) = self.record.live().get(gone) else {
            return;
        };
        let taken = stay.taken;
        self.record.take_away(gone, row);
        for index in gone..self.record.live().len() {
            self.record.move_down(index, taken, row);
        }
    }

    /// A frame of `size` bytes arrived, in that row and in the line of that number, and is held.
    pub(crate) fn hold_frame(&mut self, size: u64, row: usize, line: usize) {
        self.compare(self.has_room(FRAMES, size), line);
        let number = self.frames;
        self.frames = number.saturating_add(1);
        self.add(FRAMES, number, size, row);
    }

    /// A frame of `size` bytes arrived, in the line of that number, and was lost: the number of the refusal.
    pub(crate) fn lose_frame(&mut self, size: u64, number: u64, line: usize) {
        self.compare(self.may_refuse(FRAMES, size, number), line);
    }
}
