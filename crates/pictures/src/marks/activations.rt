//! Activations of processes, each from the row where it begins to the row where the process waits or ends; and what one process gave
//! another at once, within an activation.

use std::alloc::Global;

/// Processes have numbers below this one.
pub(crate) const PROCESSES: usize = 20;

/// An activation of a process, from a row to a row.
#[derive(Clone, Copy)]
pub struct Activation {
    pub pid: usize,
    pub first: usize,
    pub last: usize,
}

/// What one process gave another at once, in a row.
#[derive(Clone, Copy)]
pub struct Gift {
    pub from: usize,
    pub to: usize,
    pub row: usize,
}

/// The activations of a process after the lines so far.
#[derive(Clone, Copy)]
struct Process {
    /// The row where its activation began, and the last one of its turns.
    begun: usize,
    last: usize,
    /// The row where its last activation ended.
    marked: Option<usize>,
}

const UNUSED: Process = Process {
    begun: 0,
    last: 0,
    marked: None,
};

/// The activations after the lines so far.
#[derive(Drop)]
pub(crate) struct Activations {
    /// Whether the present row's lines are repeated ones, which show as little as one of them.
    pub(crate) is_folded: bool,
    processes: [Process; PROCESSES],
    /// The processes in an activation, the innermost last.
    active: Vec<usize>,
    ended: Vec<Activation>,
    gifts: Vec<Gift>,
    /// Whether there was memory for all of them so far.
    is_whole: bool,
}

impl Activations {
    pub(crate) fn new(alloc: Global) -> Self {
        Activations {
            is_folded: false,
            processes: [UNUSED; PROCESSES],
            active: Vec::new(alloc),
            ended: Vec::new(alloc),
            gifts: Vec::new(alloc),
            is_whole: true,
        }
    }

    /// Whether a process is in an activation.
    pub(crate) fn has(&self, pid: usize) -> bool {
        self.active.as_slice().contains(&pid)
    }

    /// A process receives something at once, from the one whose activation is the innermost, if there is one.
    pub(crate) fn give(&mut self, to: usize, row: usize) {
        match self.active.last() {
            Some(from) if !self.is_folded => {
                let from = *from;
                self.is_whole &= self.gifts.push(Gift { from, to, row }).is_ok();
            }
            _ => {}
        }
    }

    /// A process's activation begins in a row.
    pub(crate) fn begin(&mut self, pid: usize, row: usize) {
        self.is_whole &= self.active.push(pid).is_ok();
        if let Some(process) = self.processes.get_mut(pid) {
            process.begun = row;
        }
    }

    /// A process takes a turn in a row.
    pub(crate) fn go_on(&mut self, pid: usize, row: usize) {
        if let Some(process) = self.processes.get_mut(pid) {
            process.last = row;
        }
    }

    /// A process's activation is known to have been in this row.
    pub(crate) fn mark_turn(&mut self, pid: usize, row: usize) {
        if let Some(process) = self.processes.get_mut(pid) {
            process.begun = row;
        }
        self.mark(pid, row);
    }

    /// A process's activation lasted up to a row. Of those in one folded row only the first is stored.
    fn mark(&mut self, pid: usize, last: usize) {
        let Some(process) = self.processes.get_mut(pid) else {
            return;
        };
        let first = process.begun;
        let is_marked = process.marked == Some(first);
        process.marked = Some(last);
        if first == last && is_marked && self.is_folded {
            return;
        }
        let activation = Activation { pid, first, last };
        self.is_whole &= self.ended.push(activation).is_ok();
    }

    /// A process's activation ends in a row.
    pub(crate) fn end(&mut self, pid: usize, row: usize) {
        for index in (0..self.active.len()).rev() {
            match self.active.get(index) {
                Some(active) if *active == pid => {
                    self.active.remove(index);
                }
                _ => {}
            }
        }
        self.mark(pid, row);
    }

    /// All activations that are still open end: nothing more is known of them.
    pub(crate) fn end_all(&mut self) {
        for _active in 0..self.active.len() {
            let pid = self.active.pop().unwrap_or(0);
            if let Some(process) = self.processes.get(pid) {
                let last = process.last;
                self.mark(pid, last);
            }
        }
    }

    /// What has ended so far is forgotten.
    pub(crate) fn forget_rows(&mut self) {
        self.ended.clear();
        self.gifts.clear();
    }

    /// Whether there was memory for all of them so far.
    pub(crate) fn is_whole(&self) -> bool {
        self.is_whole
    }

    /// The activations that ended, and what was given within them.
    pub(crate) fn finish(self) -> (Vec<Activation>, Vec<Gift>) {
        (self.ended, self.gifts)
    }
}
