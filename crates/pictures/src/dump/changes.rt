//! What changes from one line of a run to the next.

use crate::dump::signal::PROCESSES;
use crate::facts::Facts;
use crate::memory::Stay;
use std::alloc::{AllocError, Global};

/// What is counted.
#[derive(Clone, Copy)]
pub(crate) enum Level {
    Queue,
    Managed,
    Heap,
    Timers,
    /// Whether the process is there.
    Life(usize),
    /// Whether it is in an activation.
    Activation(usize),
}

/// The number of levels: two for each process, and four others.
pub(crate) const LEVELS: usize = 4 + 2 * PROCESSES;

impl Level {
    /// Its position among all.
    pub(crate) fn index(self) -> usize {
        match self {
            Level::Queue => 0,
            Level::Managed => 1,
            Level::Heap => 2,
            Level::Timers => 3,
            Level::Life(pid) => pid.saturating_mul(2).saturating_add(4),
            Level::Activation(pid) => pid.saturating_mul(2).saturating_add(5),
        }
    }
}

/// A level rises or falls at a line.
#[derive(Clone, Copy)]
pub(crate) struct Change {
    pub(crate) line: usize,
    pub(crate) level: Level,
    pub(crate) amount: u64,
    pub(crate) rises: bool,
}

/// The changes of a run.
#[derive(Drop)]
struct Changes {
    changes: Vec<Change>,
    /// Whether there was memory for all of them so far.
    are_whole: bool,
}

impl Changes {
    /// A level is higher by so much from a line on, up to another one.
    fn push(&mut self, level: Level, amount: u64, first: usize, end: Option<usize>) {
        let mut change = Change {
            line: first,
            level,
            amount,
            rises: true,
        };
        self.are_whole &= self.changes.push(change).is_ok();
        if let Some(line) = end {
            change.line = line;
            change.rises = false;
            self.are_whole &= self.changes.push(change).is_ok();
        }
    }

    fn push_stays(&mut self, level: Level, stays: &[Stay]) {
        for stay in stays {
            self.push(level, stay.taken, stay.first, stay.last);
        }
    }

    fn push_processes(&mut self, facts: &Facts) {
        for life in facts.marks.lives.as_slice() {
            self.push(Level::Life(life.pid), 1, life.first, life.end);
        }
        for activation in facts.marks.activations.as_slice() {
            let end = Some(activation.last.saturating_add(1));
            self.push(Level::Activation(activation.pid), 1, activation.first, end);
        }
    }

    fn push_counts(&mut self, facts: &Facts) {
        for wait in facts.waits.as_slice() {
            self.push(Level::Queue, 1, wait.line, wait.end);
        }
        for arming in facts.marks.armings.as_slice() {
            self.push(Level::Timers, 1, arming.first, arming.last);
        }
    }
}

/// What changes in a run, line by line.
pub(crate) fn changes_of(alloc: Global, facts: &Facts) -> Result<Vec<Change>, AllocError> {
    let mut found = Changes {
        changes: Vec::new(alloc),
        are_whole: true,
    };
    found.push_processes(facts);
    found.push_counts(facts);
    found.push_stays(Level::Managed, facts.marks.stays.managed.as_slice());
    found.push_stays(Level::Heap, facts.marks.stays.heap.as_slice());
    if !found.are_whole {
        return Err(AllocError);
    }
    let mut changes = found.changes;
    changes.sort_by_key(|change| change.line)?;
    Ok(changes)
}
