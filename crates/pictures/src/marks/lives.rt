//! The lives of processes, from INIT to the end.

use crate::marks::activations::PROCESSES;
use std::alloc::Global;

/// A process from its INIT to its end, if it ended.
#[derive(Clone, Copy)]
pub struct Life {
    pub pid: usize,
    pub first: usize,
    pub end: Option<usize>,
}

/// The lives after the lines so far.
#[derive(Drop)]
pub(crate) struct Lives {
    /// For each process the row of its INIT, while it lives.
    born: [Option<usize>; PROCESSES],
    lives: Vec<Life>,
    /// Whether there was memory for all of them so far.
    is_whole: bool,
}

impl Lives {
    pub(crate) fn new(alloc: Global) -> Self {
        Lives {
            born: [None; PROCESSES],
            lives: Vec::new(alloc),
            is_whole: true,
        }
    }

    /// A process receives INIT in a row.
    pub(crate) fn begin(&mut self, pid: usize, row: usize) {
        if let Some(born) = self.born.get_mut(pid) {
            *born = Some(row);
        }
    }

    /// A process ends in a row. A life within one folded row isn't stored.
    pub(crate) fn end(&mut self, pid: usize, row: usize, is_folded: bool) {
        let Some(born) = self.born.get_mut(pid) else {
            return;
        };
        match born.take() {
            Some(first) if first < row || !is_folded => {
                let end = Some(row);
                self.is_whole &= self.lives.push(Life { pid, first, end }).is_ok();
            }
            _ => {}
        }
    }

    /// What has ended so far is forgotten.
    pub(crate) fn forget_rows(&mut self) {
        self.lives.clear();
    }

    /// The processes that have not ended live on to the end. Returns whether there was memory for all lives.
    pub(crate) fn close(&mut self) -> bool {
        for pid in 0..PROCESSES {
            if let Some(first) = self.born[pid] {
                let end = None;
                self.is_whole &= self.lives.push(Life { pid, first, end }).is_ok();
            }
        }
        self.is_whole
    }

    /// The lives that ended, and those that `close` found.
    pub(crate) fn finish(self) -> Vec<Life> {
        self.lives
    }
}
